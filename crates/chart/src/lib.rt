// What the chart viewer reads: a recording's footprint as well-known text.
#![tactic(auto)]
