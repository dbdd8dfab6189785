// One history, each answer with where it came from, computed: see specs/.
#![tactic(auto)]
