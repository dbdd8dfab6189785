// The figures of pass lists and manual passes, proved: see specs/.
#![tactic(auto)]
