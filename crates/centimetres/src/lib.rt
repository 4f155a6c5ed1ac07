// Pairs of triangles in whole centimetres, as a footprint file has them: definitions and laws.
#![tactic(auto)]
