// Flags and ring of two triangles: definitions and laws.
#![tactic(auto)]
