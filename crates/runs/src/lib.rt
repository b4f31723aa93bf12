// The runs of both machines, fresh and continued: what they are lent is checked in order (rule 6.21), and a refusal writes nothing.
#![tactic(auto)]

pub mod checks;
mod continued;
mod fresh;
pub mod steps;

ghost use Rattle.std.specs.Prelude.{◌≡◌, true, false, []};
ghost use Rattle.model.specs.Class.{pair};
ghost use Rattle.model.specs.State.MachineKind.{plain, reduced};
ghost use Rattle.machine.specs.View.{state_of};
ghost use Rattle.runs.specs.Checks.{frame_of};
ghost use Rattle.runs.specs.Answers.{said_of, fresh_said, continued_said};

use continued::continued_run;
use fresh::fresh_run;
use machine::{End, Record};
use table::Refusal;

// What a run hands back, beside the cells: its end, the steps, the choices used, and the record, whose row is where the run stands. Of the
// choice writer the same, with the numbers written for the choices used.
#[derive(Clone, Copy)]
pub struct Ran {
    pub end: End,
    pub steps: u32,
    pub used: u64,
    pub record: Record,
}

// A fresh run of the plain machine on a table, in lent cells, with a limit of steps.
pub fn run_plain(t: &[u32], cells: &mut [u32], limit: u32) -> Result<Ran, Refusal>
    ensures { said_of t.now (frame_of t.now false 0 0) [] result cells.new ≡ fresh_said plain [] t.now
        cells.old [] limit }
{
    fresh_run(t, cells, &t[..0], false, 0, 0, limit)
}

// A run of the plain machine from a record on.
pub fn continue_plain(r: Record, t: &[u32], cells: &mut [u32], limit: u32) -> Result<Ran, Refusal>
    ensures { said_of t.now (frame_of t.now false 0 0) [] result cells.new ≡ continued_said plain [] t.now
        (state_of t.now (frame_of t.now false 0 0) r cells.old) [] limit }
{
    continued_run(r, t, cells, &t[..0], false, 0, 0, limit)
}

// A fresh run of the reduced machine on a reduced table, for a pair of places, under a list of choices.
pub fn run_reduced(
    t: &[u32],
    c1: u32,
    c2: u32,
    cells: &mut [u32],
    list: &[u32],
    limit: u32,
) -> Result<Ran, Refusal>
    ensures { said_of t.now (frame_of t.now true c1 c2) list.now result cells.new ≡ fresh_said reduced
        (pair c1 c2) t.now cells.old list.now limit }
{
    fresh_run(t, cells, list, true, c1, c2, limit)
}

// A run of the reduced machine from a record on.
pub fn continue_reduced(
    r: Record,
    t: &[u32],
    c1: u32,
    c2: u32,
    cells: &mut [u32],
    list: &[u32],
    limit: u32,
) -> Result<Ran, Refusal>
    ensures { said_of t.now (frame_of t.now true c1 c2) list.now result cells.new ≡ continued_said reduced
        (pair c1 c2) t.now (state_of t.now (frame_of t.now true c1 c2) r cells.old) list.now limit }
{
    continued_run(r, t, cells, list, true, c1, c2, limit)
}
