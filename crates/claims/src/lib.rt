// What was promised, as theorems. This crate has no code.
#![tactic(auto)]
