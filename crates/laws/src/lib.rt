// What follows from the definitions of `rules`, for every unit size and every number of units; see specs/.
#![tactic(auto)]
