// Decisions, corners and lists worked by hand, in a crate of their own, so that what they are computed from is proved in less time.
#![tactic(auto)]
