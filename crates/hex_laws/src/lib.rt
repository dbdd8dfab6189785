// Intel HEX, theorems alone: see specs/HexLaws.antt.
#![tactic(auto)]
