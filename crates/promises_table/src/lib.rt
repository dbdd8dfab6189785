// Promises on the read table, no code: see specs/Promises.antt.
#![tactic(auto)]
