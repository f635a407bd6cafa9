// Theorems that the library rounds to the nearest value of a format, ties to even. This crate has
// no code.
#![tactic(auto)]
