// What happens to a corner and its normal: matrices, and vectors of three. Each operation is
// rounded once, in the original's order; a sum runs left to right from its first term.
#![tactic(auto)]

pub mod matrix;
pub mod normal;
pub mod three;
