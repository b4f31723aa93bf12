// What a row of the plain machine comes to, with its numbers pushed onto a lent buffer from place 0 on: those of its operands, then its own.
// The place in what it comes to is how many there are. held says of each array whether the reduced run holds it reduced.
// A plain row takes no choice, so that the list that is lent is not read. For the choice writer, which sees to what is required.
#![tactic(auto)]

ghost use Rattle.std.specs.Prelude.{◌≡◌, ℕ, ◌<◌, ◌≤◌, ◌^◌, List, length};
ghost use Rattle.model.specs.Table.Row.{assign, store, loop, loop_end};
ghost use Rattle.prepared.specs.Own.{decls_of, rows_of};
ghost use Rattle.calls.specs.Stack.{depth_of};
ghost use Rattle.machine.specs.CodeMoves.{BoolsFit, Within, CallsFit, LoopFits, RepeatFits};
ghost use Rattle.recording.specs.CodeRecords.{Plain};
ghost use Rattle.recording_rows.specs.CodeMoves.{RowRecords, StepRecords};

use evaluators::answers::{Answer, Failure, next_start};
use evaluators::arrays::pointed;
use evaluators::inputs::Inputs;
use evaluators::nodes::wide;
use kinds::{Row, Ty};
use lists::word_or_zero;
use machine::{Move, Worked};
use prepared::own::row_word;
use recording::bounds::record_bounds;
use recording_cycle::{record_bool, record_pointer, record_uint};
use row_kinds::calling::{called, returned};
use row_kinds::conditions::tested;
use row_kinds::operands::lost;
use row_kinds::writes::target_gets;
use row_variables::arrays::laid;
use row_variables::loops::entry;
use row_variables::values::{put_bool, put_pointer, put_uint};

// Row 33.
fn record_assign<'a>(
    a: usize,
    b: usize,
    inputs: &Inputs<'a>,
    held: &[u8; 16],
    out: &mut [u32],
) -> Worked
    requires own_bound { (decls_of inputs.now.own.now ≤ 32) × (inputs.now.machine.now.count ≤ 16) × (a < 2 ^ 32)
        × BoolsFit inputs.now.own.now inputs.now.machine.now.numbers }
    requires ns_len { (length inputs.now.machine.now.numbers ≡ 32) × (length inputs.now.machine.now.bases ≡ 32) × Plain inputs.now.own.now }
    ensures { (c : ℕ) → RowRecords inputs.now.own.now inputs.now.machine.now inputs.now.cells.now held.now assign a b c result
        out.old out.new }
{
    let own = inputs.own;
    let kind = word_or_zero(own, 4 * a);
    match Ty::from(kind) {
        Ty::Bool => put_bool(inputs, a, record_bool(b, 1024, 0, inputs, held, out)),
        Ty::Uint => put_uint(inputs, a, record_uint(b, 1024, 0, inputs, held, out)),
        Ty::Pointer => put_pointer(inputs, a, record_pointer(b, 1024, 0, inputs, held, out)),
    }
}

// Row 34; the write itself has no number.
fn record_store<'a>(
    a: usize,
    b: usize,
    inputs: &Inputs<'a>,
    held: &[u8; 16],
    out: &mut [u32],
) -> Worked
    requires { (decls_of inputs.now.own.now ≤ 32) × (inputs.now.machine.now.count ≤ 16) × Plain inputs.now.own.now }
    ensures { (c : ℕ) → RowRecords inputs.now.own.now inputs.now.machine.now inputs.now.cells.now held.now store a b c result
        out.old out.new }
{
    let x = record_pointer(a, 1024, 0, inputs, held, out);
    let Answer::Pointer(to, place, next) = x else {
        return lost(x);
    };
    let y = record_uint(b, 1024, next, inputs, held, out);
    let Answer::Uint(v, last) = y else {
        return lost(y);
    };
    let target = pointed(inputs.machine, to);
    target_gets(
        false,
        inputs.own,
        inputs.cells.len(),
        target,
        place,
        v,
        last,
    )
}

// Row 38.
fn record_loop<'a>(
    b: usize,
    c: usize,
    inputs: &Inputs<'a>,
    held: &[u8; 16],
    out: &mut [u32],
) -> Worked
    requires { (inputs.now.machine.now.count ≤ 16)
        × LoopFits inputs.now.own.now inputs.now.machine.now.numbers inputs.now.machine.now.row inputs.now.machine.now.row inputs.now.machine.now.«open»
        × Plain inputs.now.own.now }
    ensures { (a : ℕ) → length inputs.now.machine.now.loop_rows ≡ 8 → length inputs.now.machine.now.starts ≡ 8
        → length inputs.now.machine.now.ends ≡ 8 → RowRecords inputs.now.own.now inputs.now.machine.now inputs.now.cells.now held.now
        loop a b c result out.old out.new }
{
    let x = record_uint(b, 1024, 0, inputs, held, out);
    let Answer::Uint(v, next) = x else {
        return lost(x);
    };
    let y = record_uint(c, 1024, next, inputs, held, out);
    let Answer::Uint(w, last) = y else {
        return lost(y);
    };
    let m = inputs.machine;
    let n = record_bounds(inputs.own, out, m.row, v, w, last);
    entry(inputs, m.row, false, v, w, m.open, false, n)
}

// Row 39: the innermost loop, with one more than its kept start (rules 2.26, 4.6).
fn record_repeat<'a>(inputs: &Inputs<'a>, out: &mut [u32]) -> Worked
    requires { RepeatFits inputs.now.own.now inputs.now.machine.now.numbers inputs.now.machine.now.loop_rows inputs.now.machine.now.starts
        inputs.now.machine.now.ends inputs.now.machine.now.row inputs.now.machine.now.«open» × Plain inputs.now.own.now }
    ensures { (a b c : ℕ) (held : List ℕ) → RowRecords inputs.now.own.now inputs.now.machine.now inputs.now.cells.now held
        loop_end a b c result out.old out.new }
{
    let m = inputs.machine;
    let open = m.open;
    if open == 0 {
        return Worked::Not(Failure::Stuck, 0);
    }
    let depth = open - 1;
    let i = depth as usize;
    let row = m.loop_rows[i];
    let end = m.ends[i];
    let x = next_start(m.starts[i], 0);
    let Answer::Uint(from, _) = x else {
        return lost(x);
    };
    let kind = row_word(inputs.own, row, 0);
    let Row::Loop = Row::from(kind) else {
        return Worked::Not(Failure::Stuck, 0);
    };
    let n = record_bounds(inputs.own, out, row, from, end, 0);
    entry(inputs, row, false, from, end, depth, true, n)
}

// The row, by its kind; that of a 43 ends what stands before it, and takes no number (rule 2.43). depth is how many callers there are.
fn recorded_row<'a>(inputs: &Inputs<'a>, held: &[u8; 16], out: &mut [u32], depth: u32) -> Worked
    requires within { Within inputs.now.own.now inputs.now.machine.now inputs.now.cells.now
        × (inputs.now.machine.now.row < rows_of inputs.now.own.now) }
    requires plain { Plain inputs.now.own.now }
    ensures { (map stack : List ℕ) → depth ≡ depth_of stack
        → CallsFit inputs.now.own.now map stack inputs.now.machine.now inputs.now.cells.now
        → StepRecords inputs.now.own.now stack inputs.now.machine.now inputs.now.cells.now held.now result out.old out.new }
{
    let own = inputs.own;
    let row = inputs.machine.row;
    let kind = row_word(own, row, 0);
    let a = wide(row_word(own, row, 1));
    let b = wide(row_word(own, row, 2));
    let c = wide(row_word(own, row, 3));
    match Row::from(kind) {
        Row::Skip => Worked::Moves(Move::Goes, 0),
        Row::Assign => record_assign(a, b, inputs, held, out),
        Row::Store => record_store(a, b, inputs, held, out),
        Row::Assert => tested(false, record_bool(a, 1024, 0, inputs, held, out)),
        Row::Assume => tested(true, record_bool(a, 1024, 0, inputs, held, out)),
        Row::Array => laid(
            inputs,
            inputs.cells.len(),
            false,
            a,
            record_uint(b, 1024, 0, inputs, held, out),
        ),
        Row::Loop => record_loop(b, c, inputs, held, out),
        Row::LoopEnd => record_repeat(inputs, out),
        Row::Procedure => Worked::Moves(Move::Returns(0), 0),
        Row::Return => returned(record_uint(a, 1024, 0, inputs, held, out)),
        Row::Call => called(
            depth,
            row_word(own, row, 1),
            record_uint(b, 1024, 0, inputs, held, out),
        ),
        _ => Worked::Not(Failure::Stuck, 0),
    }
}

// The row where a record stands; past the last row, where what stands before it ends, a return of 0 with no number (rule 2.43).
pub fn recorded_move<'a>(
    inputs: &Inputs<'a>,
    held: &[u8; 16],
    out: &mut [u32],
    depth: u32,
) -> Worked
    requires within { Within inputs.now.own.now inputs.now.machine.now inputs.now.cells.now }
    requires plain { Plain inputs.now.own.now }
    ensures { (map stack : List ℕ) → depth ≡ depth_of stack
        → CallsFit inputs.now.own.now map stack inputs.now.machine.now inputs.now.cells.now
        → StepRecords inputs.now.own.now stack inputs.now.machine.now inputs.now.cells.now held.now result out.old out.new }
{
    if inputs.own[134] <= inputs.machine.row {
        return Worked::Moves(Move::Returns(0), 0);
    }
    recorded_row(inputs, held, out, depth)
}
