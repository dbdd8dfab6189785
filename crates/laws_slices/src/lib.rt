// Laws for proofs by hand of functions over lent slices of any element type; see specs/.
#![tactic(auto)]
