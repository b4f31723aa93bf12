// What a run is told, and the run's own copy of its table: each sort at a fixed place, with the form of value of each variable worked out.
#![tactic(auto)]

pub mod copies; // copies.rt: numbers copied into a lent list
pub mod forms; // forms.rt: the form of value that a variable holds
pub mod own; // own.rt: the copy
pub mod places; // places.rt: classes and tracked places, by the copy

use kinds::Counts;

// The two places; whether marked uints hold classes, as in the reduced machine; and how many lines of each sort the table has.
// The plain machine tracks no place, whatever the two numbers are.
#[derive(Clone, Copy)]
pub struct Frame {
    pub c1: u32,
    pub c2: u32,
    pub classes: bool,
    pub counts: Counts,
}

// The form of value that a variable holds.
#[derive(Clone, Copy, PartialEq, Eq)]
pub enum Form {
    Bool,
    Uint,
    Class,
    Pointer,
}
