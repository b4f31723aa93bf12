// The checks of loops: 11, of their nesting, and 16, of their iterators; and the row that closes a loop. All of it is for our crates above, which
// see to what is required here.
#![tactic(auto)]

pub mod iterators; // iterators.rt: iterators of open loops, check 16
pub mod loops; // loops.rt: the matching end row, check 11
