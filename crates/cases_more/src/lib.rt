// What document 01's starred figures leave open, proved: see specs/.
#![tactic(auto)]
