// The leaves of float arithmetic. Each is total, and its contract says what it answers for every
// input, NaN included.
#![tactic(auto)]

pub mod bits;
pub mod cast;
mod digits;
pub mod number;
pub mod range;
pub mod root;
