// What the float operations, comparisons and conversions mean, as theorems. This crate has no code.
#![tactic(auto)]
