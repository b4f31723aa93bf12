// The machines: the record by value, what a row comes to, and the step that makes the change. What a row comes to is worked out by the crates above.
#![tactic(auto)]

mod fresh; // fresh.rt: a fresh record and a blank one
pub mod steps; // steps.rt: the steps

use calls::{CALLERS, LOCALS, STACK};

// Why an operand or a row failed (rule 2.36).
#[derive(Clone, Copy, PartialEq, Eq)]
pub enum Reason {
    SumTooLarge,
    BelowZero,
    WithoutArray,
    PastLength,
    CounterTooLarge,
}

// Why there is no value, of an operand, a row or a run: it failed, with its reason; a choice is not allowed; no choice is left; or stuck, the
// outcome that is no end.
#[derive(Clone, Copy)]
pub enum Failure {
    Fails(Reason),
    BadChoice,
    NoChoice,
    Stuck,
}

// The ends of a run (rule 2.29), a failure with its reason; list full is the choice writer's alone, too deep that of a call (rule 2.41).
#[derive(Clone, Copy, PartialEq, Eq)]
pub enum End {
    Done,
    AssertFalse,
    AssumeFalse,
    Fail(Reason),
    WantOfCells,
    OutOfSteps,
    ChoiceNotAllowed,
    NoChoiceLeft,
    ListFull,
    TooDeep,
}

// What a row works on: the row; the variables, each with a number and, for a pointer, its array counted from 1 (0 for none); the open loops,
// outermost first, each with its row, start and end; the arrays, each with its first cell, its true length and its shape, 1 for a reduced one
// and any other for a plain one. What stands past those in use is no part of it (rule 7.13).
// A number stands before each group of columns: so a change to one column copies that column and no other.
#[derive(Clone, Copy)]
pub struct Machine {
    pub row: u32,
    pub numbers: [u32; Machine::VARIABLES],
    pub bases: [u32; Machine::VARIABLES],
    pub open: u32,
    pub loop_rows: [u32; Machine::LOOPS],
    pub starts: [u32; Machine::LOOPS],
    pub ends: [u32; Machine::LOOPS],
    pub count: u32,
    pub firsts: [u32; Machine::ARRAYS as usize],
    pub lengths: [u32; Machine::ARRAYS as usize],
    pub shapes: [u8; Machine::ARRAYS as usize],
}

// The record: the machine, and the stack of its callers, 30 words for each of eight, the one in main first: its row, how many loops are open,
// four locals, and the rows, starts and ends of eight loops. The last word is how many callers there are (rule 2.39).
#[derive(Clone, Copy)]
pub struct Record {
    pub machine: Machine,
    pub stack: [u32; STACK],
}

impl Machine {
    // The most variables, open loops and arrays that a record has, and how many cells each machine has.
    pub const VARIABLES: usize = 32;

    pub const LOOPS: usize = 8;

    pub const ARRAYS: u32 = 16;

    pub const PLAIN_CELLS: usize = 4096;

    pub const REDUCED_CELLS: usize = 4128;
}

impl Record {
    // The most callers that a record has (rule 2.41), and the most locals that it keeps of each (rule 1.21).
    pub const CALLERS: u32 = CALLERS as u32;

    pub const LOCALS: usize = LOCALS;
}

// What a step changes: nothing but the row; variable a gets a number and a base; cell i gets a number; pointer a gets a new array (its first
// cell, length, cells, and whether it is reduced); the loop of a row is entered (its iterator and the iterator's number, the row, how many
// loops are open around it, start and end) or left (iterator and number, how many loops stay open, the row to go to); a procedure is called
// with a number, or a number is returned to the last caller.
#[derive(Clone, Copy)]
pub enum Move {
    Goes,
    Puts(usize, u32, u32),
    Writes(usize, u32),
    Lays(usize, u32, u32, u32, bool),
    Enters(usize, u32, u32, u32, u32, u32),
    Leaves(usize, u32, u32, u32),
    Calls(u32, u32),
    Returns(u32),
}

// What a row comes to: a change, or the run's end, each with the place of the next choice; or why there is neither. A row that ends the run
// changes nothing, by its type.
#[derive(Clone, Copy)]
pub enum Worked {
    Moves(Move, usize),
    Ends(End, usize),
    Not(Failure, usize),
}
