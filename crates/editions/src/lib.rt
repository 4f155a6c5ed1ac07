// The two editions of the leak rule side by side: what does not turn on the edition, and the list as it was when there was one edition.
#![tactic(auto)]
