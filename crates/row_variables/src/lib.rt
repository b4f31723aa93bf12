// What a row that sets a variable comes to, by its kind, once its operands are worked out; worked out from the record's columns. What is said of them
// stands with the other rows, in the crate `row_kinds`. All of it is for our crates above, which see to what is required here.
#![tactic(auto)]

pub mod arrays; // arrays.rt: rows 37 and 41
pub mod loops; // loops.rt: rows 38, 42 and 39
pub mod values; // values.rt: row 33
