// What the row where a record stands comes to. Nothing is changed here.
#![tactic(auto)]

ghost use Rattle.std.specs.Prelude.{◌≡◌, List, ℕ, ◌<◌, ◌≤◌, length, drop};
ghost use Rattle.prepared.specs.Own.{decls_of, rows_of};
ghost use Rattle.calls.specs.Stack.{depth_of};
ghost use Rattle.machine.specs.CodeMoves.{Within, CallsFit, RowWorks, StepWorks, store_row, loop_row, LoopFits};

use evaluators::answers::{Answer, Failure};
use evaluators::arrays::pointed;
use evaluators::inputs::Inputs;
use kinds::Row;
use machine::{Move, Worked};
use node_cycle::{bool_at, pointer_at, uint_at};
use prepared::own::row_word;
use row_kinds::calling::{called, returned};
use row_kinds::conditions::tested;
use row_kinds::operands::lost;
use row_kinds::writes::target_gets;
use row_variables::arrays::laid;
use row_variables::loops::{loop_at, repeated};
use row_variables::values::assigned;

// Row 34, or 40: its operands, then the write.
fn stored<'a>(tracking: bool, a: usize, b: usize, at: usize, inputs: &Inputs<'a>) -> Worked
    requires { (decls_of inputs.now.own.now ≤ 32) × (inputs.now.machine.now.count ≤ 16) }
    ensures { (c : ℕ) (stack : List ℕ) → RowWorks inputs.now.own.now stack inputs.now.machine.now inputs.now.cells.now
        inputs.now.list.now (store_row tracking) a b c (drop at inputs.now.list.now) result }
{
    let x = pointer_at(a, 1024, at, inputs);
    let Answer::Pointer(to, place, next) = x else {
        return lost(x);
    };
    let y = uint_at(b, 1024, next, inputs);
    let Answer::Uint(v, last) = y else {
        return lost(y);
    };
    let target = pointed(inputs.machine, to);
    target_gets(
        tracking,
        inputs.own,
        inputs.cells.len(),
        target,
        place,
        v,
        last,
    )
}

// Row 38, or 42: its operands, then the loop.
fn looped<'a>(class: bool, b: usize, c: usize, at: usize, inputs: &Inputs<'a>) -> Worked
    requires { (inputs.now.machine.now.count ≤ 16)
        × LoopFits inputs.now.own.now inputs.now.machine.now.numbers inputs.now.machine.now.row inputs.now.machine.now.row inputs.now.machine.now.«open» }
    ensures { (a : ℕ) (stack : List ℕ) → length inputs.now.machine.now.loop_rows ≡ 8 → length inputs.now.machine.now.starts ≡ 8
        → length inputs.now.machine.now.ends ≡ 8 → RowWorks inputs.now.own.now stack inputs.now.machine.now inputs.now.cells.now
        inputs.now.list.now (loop_row class) a b c (drop at inputs.now.list.now) result }
{
    let x = uint_at(b, 1024, at, inputs);
    let Answer::Uint(v, next) = x else {
        return lost(x);
    };
    let y = uint_at(c, 1024, next, inputs);
    let Answer::Uint(w, last) = y else {
        return lost(y);
    };
    let m = inputs.machine;
    loop_at(inputs, m.row, class, v, w, m.open, false, last)
}

// The row, by its kind; that of a 43 ends what stands before it. depth is how many callers there are.
fn row_move<'a>(at: usize, inputs: &Inputs<'a>, depth: u32) -> Worked
    requires { Within inputs.now.own.now inputs.now.machine.now inputs.now.cells.now
        × (inputs.now.machine.now.row < rows_of inputs.now.own.now) }
    ensures { (map stack : List ℕ) → depth ≡ depth_of stack
        → CallsFit inputs.now.own.now map stack inputs.now.machine.now inputs.now.cells.now
        → StepWorks inputs.now.own.now stack inputs.now.machine.now inputs.now.cells.now inputs.now.list.now at result }
{
    let own = inputs.own;
    let row = inputs.machine.row;
    let kind = row_word(own, row, 0);
    let a = row_word(own, row, 1) as usize;
    let b = row_word(own, row, 2) as usize;
    let c = row_word(own, row, 3) as usize;
    match Row::from(kind) {
        Row::Skip => Worked::Moves(Move::Goes, at),
        Row::Assign => assigned(a, b, at, inputs),
        Row::Store => stored(false, a, b, at, inputs),
        Row::Assert => tested(false, bool_at(a, 1024, at, inputs)),
        Row::Assume => tested(true, bool_at(a, 1024, at, inputs)),
        Row::Array => laid(
            inputs,
            inputs.cells.len(),
            false,
            a,
            uint_at(b, 1024, at, inputs),
        ),
        Row::Loop => looped(false, b, c, at, inputs),
        Row::LoopEnd => repeated(inputs, at),
        Row::ReducedStore => stored(true, a, b, at, inputs),
        Row::ReducedArray => laid(
            inputs,
            inputs.cells.len(),
            true,
            a,
            uint_at(b, 1024, at, inputs),
        ),
        Row::ClassLoop => looped(true, b, c, at, inputs),
        Row::Procedure => Worked::Moves(Move::Returns(0), at),
        Row::Return => returned(uint_at(a, 1024, at, inputs)),
        Row::Call => called(depth, row_word(own, row, 1), uint_at(b, 1024, at, inputs)),
        Row::Unknown => Worked::Not(Failure::Stuck, at),
    }
}

// The row where a record stands; past the last row, where what stands before it ends, a return of 0 (rule 2.43).
pub fn move_of<'a>(at: usize, inputs: &Inputs<'a>, depth: u32) -> Worked
    requires { Within inputs.now.own.now inputs.now.machine.now inputs.now.cells.now }
    ensures { (map stack : List ℕ) → depth ≡ depth_of stack
        → CallsFit inputs.now.own.now map stack inputs.now.machine.now inputs.now.cells.now
        → StepWorks inputs.now.own.now stack inputs.now.machine.now inputs.now.cells.now inputs.now.list.now at result }
{
    if inputs.own[134] <= inputs.machine.row {
        return Worked::Moves(Move::Returns(0), at);
    }
    row_move(at, inputs, depth)
}
