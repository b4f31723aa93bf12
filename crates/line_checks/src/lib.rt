// The checks 5 to 10 and 12, of a line each. All of it is for our crates above, which see to what is required here.
#![tactic(auto)]

pub mod depths; // depths.rt: depths of nodes, check 10
pub mod marks; // marks.rt: marks of variables, check 12
pub mod operands; // operands.rt: kind, count and operands, checks 5 to 8
pub mod types; // types.rt: types of nodes, check 9
