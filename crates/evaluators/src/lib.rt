// What the three evaluators are made of: how a node is worked out in either machine once its operands are, from the run's own copy of its table,
// the cells, the choice list and the record's columns.
#![tactic(auto)]

pub mod answers; // answers.rt: what working out gives, and the answers that need no column
pub mod arrays; // arrays.rt: the arrays, their cells and their places
pub mod inputs; // inputs.rt: what they are worked out from
pub mod leaves; // leaves.rt: constants and variables
pub mod nodes; // nodes.rt: a node's line, taken apart
