// What is promised of pass lists and manual passes: see specs/Promises.antt.
#![tactic(auto)]
