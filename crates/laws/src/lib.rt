// Laws that the proofs of every floor cite. This crate has no code.
#![tactic(auto)]
