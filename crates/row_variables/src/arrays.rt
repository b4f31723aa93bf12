// Rows 37 and 41: a new array.
ghost use Rattle.std.specs.Prelude.{◌≡◌, ◌≤◌, ◌*◌};
ghost use Rattle.prepared.specs.Own.{decls_of, places_of};
ghost use Rattle.row_kinds.specs.CodeRows.{used_in, lacks_room, lay_of, laid_of};

use crate::values::fits;
use evaluators::answers::{Answer, Failure};
use evaluators::inputs::Inputs;
use machine::{End, Machine, Move, Worked};
use prepared::Form;
use prepared::forms::number_of;
use row_kinds::operands::lost;
use row_kinds::sizes::size_for;

// How many cells the arrays have.
fn used_in<'a>(inputs: &Inputs<'a>) -> usize
    requires { inputs.now.machine.now.count ≤ 16 }
    ensures { (result ≡ used_in (places_of inputs.now.own.now) inputs.now.machine.now.count inputs.now.machine.now.lengths
        inputs.now.machine.now.shapes) × (result ≤ 16 * 4294967295) }
{
    let m = inputs.machine;
    let mut total: usize = 0;
    for i in 0..m.count as usize {
        let shape = m.shapes[i];
        let size = size_for(inputs.own, m.lengths[i], shape == 1);
        total += size as usize;
    }
    total
}

// Whether there is no room for one more array of so many cells.
fn lacks_room(count: u32, used: usize, size: u32, cells: usize) -> bool
    requires { used ≤ 16 * 4294967295 }
    ensures { result ≡ lacks_room count used size cells }
{
    Machine::ARRAYS <= count || cells < used + size as usize
}

// A new array of a length, for pointer a, in so many cells.
fn lay<'a>(
    inputs: &Inputs<'a>,
    cells: usize,
    reduced: bool,
    a: usize,
    len: u32,
    at: usize,
) -> Worked
    requires { (decls_of inputs.now.own.now ≤ 32) × (inputs.now.machine.now.count ≤ 16) × (cells ≤ 4294967295) }
    ensures { result ≡ lay_of inputs.now.own.now inputs.now.machine.now.numbers inputs.now.machine.now.lengths
        inputs.now.machine.now.shapes inputs.now.machine.now.count cells reduced a len at }
{
    if fits(inputs, a, number_of(Form::Pointer)) {
        let size = size_for(inputs.own, len, reduced);
        let used = used_in(inputs);
        if lacks_room(inputs.machine.count, used, size, cells) {
            return Worked::Ends(End::WantOfCells, at);
        }
        return Worked::Moves(Move::Lays(a, used as u32, len, size, reduced), at);
    }
    Worked::Not(Failure::Stuck, at)
}

// Row 37, or 41, with its length worked out.
pub fn laid<'a>(inputs: &Inputs<'a>, cells: usize, reduced: bool, a: usize, x: Answer) -> Worked
    requires { (decls_of inputs.now.own.now ≤ 32) × (inputs.now.machine.now.count ≤ 16) × (cells ≤ 4294967295) }
    ensures { result ≡ laid_of inputs.now.own.now inputs.now.machine.now.numbers inputs.now.machine.now.lengths
        inputs.now.machine.now.shapes inputs.now.machine.now.count cells reduced a x }
{
    let Answer::Uint(len, at) = x else {
        return lost(x);
    };
    lay(inputs, cells, reduced, a, len, at)
}
