// The code's order along an edge and its ring are those of the rules: laws.
#![tactic(auto)]
