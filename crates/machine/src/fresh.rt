// A fresh record, and a blank one.
ghost use Rattle.std.specs.Prelude.{◌≡◌, ◌<◌, ◌≤◌};
ghost use Rattle.machine.specs.CodeFresh.{start_number, blank_machine, fresh_machine, blank_record, fresh_record};

use crate::{Machine, Record};
use calls::STACK;
use model::class_of;
use prepared::forms::form_of;
use prepared::{Form, Frame};

// What a variable's number is at first: that of the class of 0 for a variable that holds a class, else 0.
fn start_number(t: &[u32], f: Frame, i: usize) -> u32
    requires { i < 32 }
    ensures { result ≡ start_number t.now f i }
{
    let form = form_of(t, f, i);
    match form {
        Form::Class => class_of(f.c1, f.c2, 0),
        _ => 0,
    }
}

impl Machine {
    // A machine with nothing in it.
    pub fn blank() -> Machine
        ensures { result ≡ blank_machine }
    {
        Machine {
            row: 0,
            numbers: [0; 32],
            bases: [0; 32],
            open: 0,
            loop_rows: [0; 8],
            starts: [0; 8],
            ends: [0; 8],
            count: 0,
            firsts: [0; 16],
            lengths: [0; 16],
            shapes: [0; 16],
        }
    }

    // The machine of a fresh run: at row 0, with no open loop and no array, and each variable as it starts.
    pub fn fresh(t: &[u32], f: Frame) -> Machine
        requires { f.counts.decls ≤ 32 }
        ensures { result ≡ fresh_machine t.now f }
    {
        let mut numbers = [0u32; 32];
        for i in 0..f.counts.decls {
            numbers[i] = start_number(t, f, i);
        }
        let mut m = Machine::blank();
        m.numbers = numbers;
        m
    }
}

impl Record {
    // A record with nothing in it.
    pub fn blank() -> Record
        ensures { result ≡ blank_record }
    {
        let machine = Machine::blank();
        Record {
            machine,
            stack: [0; STACK],
        }
    }

    // The record of a fresh run, with no caller.
    pub fn fresh(t: &[u32], f: Frame) -> Record
        requires { f.counts.decls ≤ 32 }
        ensures { result ≡ fresh_record t.now f }
    {
        let machine = Machine::fresh(t, f);
        Record {
            machine,
            stack: [0; STACK],
        }
    }
}
