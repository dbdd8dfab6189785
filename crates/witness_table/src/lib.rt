// Short histories through the read table, computed: see specs/.
#![tactic(auto)]
