// The parts of a node that call no recording evaluator: a variable, a constant and a cell, with the number of each. A plain table takes no
// choice, so that the list that is lent is not read.
ghost use Rattle.std.specs.Prelude.{◌≡◌, true, ◌≤◌};
ghost use Rattle.model.specs.Eval.{ptr};
ghost use Rattle.prepared.specs.Own.{decls_of};
ghost use Rattle.prepared.specs.View.{arrays_of};
ghost use Rattle.evaluators.specs.CodeLeaves.{leaf_at};
ghost use Rattle.recording.specs.CodePushes.{pushed};
ghost use Rattle.recording.specs.CodeRecords.{Plain, held_of, placed_at, VariableRecords, LeafRecords, CellRecords};

use crate::marks::{is_held, is_place, marked_uint};
use crate::pushes::push;
use evaluators::answers::{Answer, Failure};
use evaluators::arrays::cell;
use evaluators::inputs::Inputs;
use evaluators::leaves::uint_variable;
use evaluators::nodes::wide;
use prepared::own::NODES;

// A variable, to a user that takes a uint, with its number where it is a marked uint.
pub fn record_variable<'a>(inputs: &Inputs<'a>, out: &mut [u32], a: usize, at: usize) -> Answer
    requires { decls_of inputs.now.own.now ≤ 32 }
    ensures { VariableRecords inputs.now.own.now inputs.now.machine.now.numbers a result out.new (pushed out.old at) }
{
    let x = uint_variable(inputs, a, at);
    let Answer::Uint(v, _) = x else {
        return x;
    };
    if marked_uint(inputs.own, a) {
        let next = push(out, at, v);
        return Answer::Uint(v, next);
    }
    Answer::Uint(v, at)
}

// A node that answers by itself, to a user that takes a uint.
pub fn record_leaf<'a>(
    inputs: &Inputs<'a>,
    out: &mut [u32],
    node: usize,
    user: usize,
    at: usize,
) -> Answer
    requires { (decls_of inputs.now.own.now ≤ 32) × (user ≤ 1024) × (leaf_at inputs.now.own.now user node ≡ true) }
    ensures { LeafRecords inputs.now.own.now inputs.now.machine.now.numbers user node result out.new (pushed out.old at) }
{
    let own = inputs.own;
    if user <= node {
        return Answer::Not(Failure::Stuck, at);
    }
    let i = NODES + 4 * node;
    let kind = own[i];
    let k = own[i + 1];
    match kind {
        16 => record_variable(inputs, out, wide(k), at),
        17 => Answer::Uint(k, at),
        _ => Answer::Not(Failure::Stuck, at),
    }
}

// An answer that has no value, with another place.
fn placed(x: Answer, at: usize) -> Answer
    ensures { result ≡ placed_at x at }
{
    let Answer::Not(why, _) = x else {
        return x;
    };
    Answer::Not(why, at)
}

// 19 with its pointer worked out, and its number where the reduced run has no cell for the place.
pub fn record_cell<'a>(
    inputs: &Inputs<'a>,
    held: &[u8; 16],
    out: &mut [u32],
    to: u32,
    place: u32,
    at: usize,
) -> Answer
    requires { (inputs.now.machine.now.count ≤ 16) × Plain inputs.now.own.now }
    ensures { CellRecords inputs.now.own.now (arrays_of inputs.now.machine.now.count inputs.now.machine.now.firsts inputs.now.machine.now.lengths
        inputs.now.machine.now.shapes) inputs.now.cells.now (held_of inputs.now.machine.now.count held.now) (ptr to place)
        result out.new (pushed out.old at) }
{
    let x = cell(false, inputs, to, place, at);
    let Answer::Uint(v, _) = x else {
        return placed(x, at);
    };
    if is_held(held, inputs.machine.count, to) {
        if is_place(inputs.own, place) {
            return Answer::Uint(v, at);
        }
        let next = push(out, at, v);
        return Answer::Uint(v, next);
    }
    Answer::Uint(v, at)
}
