// The order in which an edge of U meets V's lines: definitions and laws.
#![tactic(auto)]
