// Two files of the same bytes but for one byte of their entries, the set or the last one: what they have in common.
#![tactic(auto)]
