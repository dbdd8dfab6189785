// Demands 2, "a plain map", and 3, "whatever moment the power goes": theorems over the definitions of `rules` alone; see specs/.
#![tactic(auto)]
