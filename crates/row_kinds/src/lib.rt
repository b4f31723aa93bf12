// What a row comes to, by its kind, once its operands are worked out; worked out from the record's columns. Rows that set a variable are in the crate
// `row_variables`. All of it is for our crates above, which see to what is required here.
#![tactic(auto)]

pub mod calling; // calling.rt: rows 44 and 45
pub mod conditions; // conditions.rt: rows 35 and 36
pub mod operands; // operands.rt: an operand with no value
pub mod sizes; // sizes.rt: the cells of an array
pub mod writes; // writes.rt: rows 34 and 40
