// The demands, theorems alone: see specs/Demands.antt.
#![tactic(auto)]
