// Demand 3 of any sound image, theorems alone: see specs/.
#![tactic(auto)]
