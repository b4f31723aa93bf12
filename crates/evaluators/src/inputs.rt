// What an operand and a row are worked out from, lent for as long as that takes.
use machine::Machine;

// The run's own copy of its table, the cells, the choice list, and the machine with the record's columns. Nothing of it is changed.
#[derive(Clone, Copy)]
pub struct Inputs<'a> {
    pub own: &'a [u32; 5256],
    pub cells: &'a [u32],
    pub list: &'a [u32],
    pub machine: &'a Machine,
}
