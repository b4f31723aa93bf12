// The loop of a run: steps until an end, or until the limit.
ghost use Rattle.std.specs.Prelude.{◌≡◌, ◌<◌, ◌≤◌, drop, length};
ghost use Rattle.model.specs.Step.{run};
ghost use Rattle.prepared.specs.View.{places, table_for};
ghost use Rattle.machine.specs.View.{state_of};
ghost use Rattle.runs.specs.CodeSteps.{Ready, kept, ran, failed_of, stopped_of, RunReports, Reports};

use crate::Ran;
use calls::{DEPTH, map_own};
use evaluators::answers::Failure;
use evaluators::inputs::Inputs;
use machine::{End, Machine, Record, Worked};
use prepared::Frame;
use prepared::own::lay_out;
use row_moves::move_of;

impl Ran {
    // An end after so many steps, with so many choices used or numbers written. Public for the choice writer.
    pub fn at_end(end: End, steps: u32, used: usize, machine: Machine, stack: [u32; 241]) -> Ran
        ensures { result ≡ ran end steps used machine stack }
    {
        let record = Record { machine, stack };
        Ran {
            end,
            steps,
            used: used as u64,
            record,
        }
    }
}

// A row that failed, after so many steps, with the next choice at a place.
fn failed(
    why: Failure,
    next: usize,
    steps: u32,
    at: usize,
    machine: Machine,
    stack: [u32; 241],
) -> Ran
    requires { steps < 4294967295 }
    ensures { result ≡ failed_of why next steps at machine stack }
{
    match why {
        Failure::Fails(reason) => Ran::at_end(End::Fail(reason), steps + 1, next, machine, stack),
        Failure::BadChoice => Ran::at_end(End::ChoiceNotAllowed, steps, at, machine, stack),
        Failure::NoChoice => Ran::at_end(End::NoChoiceLeft, steps, at, machine, stack),
        Failure::Stuck => Ran::at_end(End::OutOfSteps, steps, at, machine, stack),
    }
}

// A row that did not go on.
fn stopped(w: Worked, steps: u32, at: usize, machine: Machine, stack: [u32; 241]) -> Ran
    requires { steps < 4294967295 }
    ensures { result ≡ stopped_of w steps at machine stack }
{
    match w {
        Worked::Ends(end, next) => Ran::at_end(end, steps + 1, next, machine, stack),
        Worked::Not(why, next) => failed(why, next, steps, at, machine, stack),
        Worked::Moves(_, _) => Ran::at_end(End::OutOfSteps, steps, at, machine, stack),
    }
}

// The steps of a run, on its own copy of the table. What a row comes to is worked out from the machine's columns; then the machine takes the
// step, or the run ends. It is done at the end of main, with no caller.
fn run_steps(
    mut m: Machine,
    mut stack: [u32; 241],
    t: &[u32],
    cells: &mut [u32],
    list: &[u32],
    f: Frame,
    limit: u32,
) -> Ran
    requires { Ready t.now f (kept m stack) cells.old }
    ensures { RunReports t.now f (kept m stack) cells.old list.now limit result cells.new }
{
    let mut own = [0u32; 5256];
    lay_out(t, f, &mut own);
    let mut map = [0u32; 273];
    map_own(&own, &mut map);
    let end = map[0];
    let mut at: usize = 0;
    let mut steps: u32 = 0;
    while (m.row < end) | (0 < stack[DEPTH]) {
        if steps == limit {
            return Ran::at_end(End::OutOfSteps, steps, at, m, stack);
        }
        let inputs = Inputs {
            own: &own,
            cells,
            list,
            machine: &m,
        };
        let w = move_of(at, &inputs, stack[DEPTH]);
        let Worked::Moves(change, next) = w else {
            return stopped(w, steps, at, m, stack);
        };
        m = m.step(&own, &map, &mut stack, cells, change);
        at = next;
        steps = steps + 1;
    }
    Ran::at_end(End::Done, steps, at, m, stack)
}

// How many numbers of a list stand before a place: all of them, for a place past its end.
fn before(list: &[u32], at: u64) -> u64
    ensures { (result ≤ length list.now) × (drop result list.now ≡ drop at list.now) }
{
    at.min(list.len() as u64)
}

// A run from a record on, with the choices used. For the public runs, which see to what is required here.
pub fn run_from(r: Record, t: &[u32], cells: &mut [u32], list: &[u32], f: Frame, limit: u32) -> Ran
    requires { Ready t.now f r cells.old }
    ensures { Reports t.now f list.now result cells.new (run (places f) (table_for t.now f) limit 0
        (state_of t.now f r cells.old) list.now) }
{
    let machine = r.machine;
    let stack = r.stack;
    let z = run_steps(machine, stack, t, cells, list, f, limit);
    let end = z.end;
    let record = z.record;
    Ran {
        end,
        steps: z.steps,
        used: before(list, z.used),
        record,
    }
}
