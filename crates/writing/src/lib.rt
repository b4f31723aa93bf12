// The parts of a step of the choice writer: the numbers of a row counted and written, the ends, and the machine after a call and after a return. All
// of it is for the choice writer, which sees to what is required here.
#![tactic(auto)]

ghost use Rattle.std.specs.Prelude.{◌≡◌, ℕ, ◌+◌, ◌<◌, ◌≤◌, List, length};
ghost use Rattle.std.proofs.Math.Seq.{paste};
ghost use Rattle.calls.specs.CallAndReturn.{Procedures, CanCall, CanReturn};
ghost use Rattle.machine.specs.declared.Move.TheVariants.{Calls, Returns};
ghost use Rattle.machine.specs.View.{own_state};
ghost use Rattle.machine.specs.CodeMoves.{state_after};
ghost use Rattle.writing.specs.CodeWriting.{count_of, failed_end, stopped_of};

use calls::{call, give_back};
use evaluators::answers::Failure;
use machine::{End, Machine, Worked};
use prepared::copies::copy;
use runs::Ran;

// How many numbers a row has.
pub fn count_of(w: Worked) -> usize
    ensures { result ≡ count_of w }
{
    match w {
        Worked::Moves(_, n) | Worked::Ends(_, n) | Worked::Not(_, n) => n,
    }
}

// Writes n numbers into the list, from a place on; the place after them.
pub fn write_numbers(list: &mut [u32], at: usize, numbers: &[u32], n: usize) -> usize
    requires { (at + n ≤ length list.old) × (n ≤ length numbers.now) }
    ensures { (result ≡ at + n) × (list.new ≡ paste list.old at numbers.now n) }
{
    copy(list, at, numbers, n);
    at + n
}

// The end of a row that failed. A plain row takes no choice and is never stuck: what stands for those is never handed back.
pub fn failed_end(why: Failure) -> End
    ensures { result ≡ failed_end why }
{
    match why {
        Failure::Fails(reason) => End::Fail(reason),
        Failure::BadChoice | Failure::NoChoice | Failure::Stuck => End::OutOfSteps,
    }
}

// A row that did not go on, after so many steps, with the row's numbers written. It is not the `stopped` of `runs`: there the row's own place counts,
// and a row whose choice fails is no step.
pub fn stopped(w: Worked, steps: u32, at: usize, machine: Machine, stack: [u32; 241]) -> Ran
    requires { steps < 4294967295 }
    ensures { result ≡ stopped_of w steps at machine stack }
{
    match w {
        Worked::Ends(end, _) => Ran::at_end(end, steps + 1, at, machine, stack),
        Worked::Not(why, _) => Ran::at_end(failed_end(why), steps + 1, at, machine, stack),
        Worked::Moves(_, _) => Ran::at_end(End::OutOfSteps, steps + 1, at, machine, stack),
    }
}

// The machine after a call of procedure k with a number, and after a return of one.
pub fn after_call(
    m: Machine,
    own: &[u32; 5256],
    map: &[u32; 273],
    stack: &mut [u32; 241],
    k: u32,
    x: u32,
) -> Machine
    requires { Procedures own.now map.now × CanCall own.now stack.old m.row k }
    ensures { (cells : List ℕ)
        → own_state own.now stack.new result cells ≡ state_after own.now stack.old m cells (Calls k x) }
{
    let mut numbers = m.numbers;
    let next = call(
        own,
        map,
        stack,
        &mut numbers,
        m.row,
        m.open,
        &m.loop_rows,
        &m.starts,
        &m.ends,
        k,
        x,
    );
    m.begin(numbers, next)
}

pub fn after_return(
    m: Machine,
    own: &[u32; 5256],
    map: &[u32; 273],
    stack: &mut [u32; 241],
    x: u32,
) -> Machine
    requires { Procedures own.now map.now × CanReturn own.now stack.old m.row }
    ensures { (cells : List ℕ)
        → own_state own.now stack.new result cells ≡ state_after own.now stack.old m cells (Returns x) }
{
    let mut numbers = m.numbers;
    let mut rows = m.loop_rows;
    let mut starts = m.starts;
    let mut ends = m.ends;
    let back = give_back(
        own,
        map,
        stack,
        &mut numbers,
        &mut rows,
        &mut starts,
        &mut ends,
        m.row,
        x,
    );
    m.resume(numbers, rows, starts, ends, back)
}
