// The parts of check 15, whether a table can have a record: where the run or a caller stands, the variables and the arrays. All of it is for our
// crates above, which see to what is required here.
#![tactic(auto)]

pub mod arrays; // arrays.rt: the arrays
pub mod loops; // loops.rt: where the run or a caller stands
pub mod variables; // variables.rt: the variables, and the locals of what is not at work
