// What `cases` has before its calls and after them: the lines of its table and what their operations
// ask for, the memories and their marks, and whether two states are the same.
#![tactic(auto)]

pub mod line;
pub mod memories;
pub mod plan;
pub mod same;
