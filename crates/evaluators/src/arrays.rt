// The arrays: the one that a pointer points to, its cells, and whether a place is in it.
// What is public here is for our crates above, which see to what it requires.
ghost use Rattle.std.specs.Prelude.{◌≤◌, drop};
ghost use Rattle.evaluators.specs.CodeAnswers.{Answers, Says};
ghost use Rattle.model.specs.Table.Ty.{bool, uint};
ghost use Rattle.model.specs.Eval.{ptr, array_of};
ghost use Rattle.prepared.specs.Own.{places_of};
ghost use Rattle.prepared.specs.View.{arrays_of};
ghost use Rattle.evaluators.specs.CodeLeaves.{Points, stored_in, tracked_in, read_of, load_of, valid_in};

use crate::answers::{Answer, Failure, Reason, any_choice};
use crate::inputs::Inputs;
use machine::Machine;
use prepared::places::{class_in, is_tracked};

// An array's first cell, its length and whether it is reduced; no array, which fails; or one that the record lacks, which is no end. So there are
// three cases, and no Option.
#[derive(Clone, Copy)]
pub enum Target {
    Array(u32, u32, bool),
    Missing,
    Unknown,
}

pub fn pointed(m: &Machine, to: u32) -> Target
    requires { m.now.count ≤ 16 }
    ensures { Points result (array_of (arrays_of m.now.count m.now.firsts m.now.lengths m.now.shapes) to) }
{
    if to == 0 {
        return Target::Missing;
    }
    if m.count < to {
        return Target::Unknown;
    }
    let i = (to - 1) as usize;
    let shape = m.shapes[i];
    Target::Array(m.firsts[i], m.lengths[i], shape == 1)
}

// Cell i of an array of so many cells, laid from start on.
fn stored(cells: &[u32], start: u32, size: u32, i: u32, at: usize) -> Answer
    ensures { Says uint at result (stored_in cells.now start size i) }
{
    if size <= i {
        return Answer::Not(Failure::Stuck, at);
    }
    let p = start as usize + i as usize;
    if p < cells.len() {
        return Answer::Uint(cells[p], at);
    }
    Answer::Not(Failure::Stuck, at)
}

// A place of a reduced array: a tracked one has a cell, any other takes a choice.
fn tracked_cell<'a>(inputs: &Inputs<'a>, start: u32, len: u32, place: u32, at: usize) -> Answer
    ensures { Answers uint inputs.now.list.now result
        (tracked_in (places_of inputs.now.own.now) inputs.now.cells.now start len place (drop at inputs.now.list.now)) }
{
    let own = inputs.own;
    if is_tracked(own, place) {
        return stored(
            inputs.cells,
            start,
            class_in(own, len),
            class_in(own, place),
            at,
        );
    }
    any_choice(inputs.list, at)
}

// A place that is below the length: of a reduced array by 28 or by 19, or of a plain one.
fn kept_cell<'a>(
    tracking: bool,
    inputs: &Inputs<'a>,
    start: u32,
    len: u32,
    reduced: bool,
    place: u32,
    at: usize,
) -> Answer
    ensures { Answers uint inputs.now.list.now result
        (read_of tracking (places_of inputs.now.own.now) inputs.now.cells.now start len reduced place (drop at inputs.now.list.now)) }
{
    if reduced {
        if tracking {
            return tracked_cell(inputs, start, len, place, at);
        }
        return stored(inputs.cells, start, class_in(inputs.own, len), place, at);
    }
    stored(inputs.cells, start, len, place, at)
}

// 28, or 19, with its pointer worked out.
pub fn cell<'a>(tracking: bool, inputs: &Inputs<'a>, to: u32, place: u32, at: usize) -> Answer
    requires { inputs.now.machine.now.count ≤ 16 }
    ensures { Answers uint inputs.now.list.now result
        (load_of tracking (places_of inputs.now.own.now) (arrays_of inputs.now.machine.now.count inputs.now.machine.now.firsts inputs.now.machine.now.lengths
        inputs.now.machine.now.shapes) inputs.now.cells.now (ptr to place) (drop at inputs.now.list.now)) }
{
    let x = pointed(inputs.machine, to);
    match x {
        Target::Array(start, len, reduced) => {
            if len <= place {
                return Answer::Not(Failure::Fails(Reason::PastLength), at);
            }
            kept_cell(tracking, inputs, start, len, reduced, place, at)
        }
        Target::Missing => Answer::Not(Failure::Fails(Reason::WithoutArray), at),
        Target::Unknown => Answer::Not(Failure::Stuck, at),
    }
}

// 26 and 29, with the pointer worked out.
pub fn valid(m: &Machine, to: u32, place: u32, at: usize) -> Answer
    requires { m.now.count ≤ 16 }
    ensures { Says bool at result (valid_in (arrays_of m.now.count m.now.firsts m.now.lengths m.now.shapes) to place) }
{
    let x = pointed(m, to);
    match x {
        Target::Array(_, len, _) => Answer::Bool(place < len, at),
        Target::Missing => Answer::Bool(false, at),
        Target::Unknown => Answer::Not(Failure::Stuck, at),
    }
}
