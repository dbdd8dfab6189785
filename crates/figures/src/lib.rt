// Document 01, sentence by sentence: a row of figures for each, computed: see specs/.
#![tactic(auto)]
