// Rows 38, 42 and 39: a loop is entered, and repeated or left.
ghost use Rattle.std.specs.Prelude.{◌≡◌, List, ℕ, ◌<◌, ◌≤◌, drop};
ghost use Rattle.model.specs.Table.Row.{loop_end};
ghost use Rattle.prepared.specs.Own.{decls_of, rows_of, places_of, number_of_form};
ghost use Rattle.machine.specs.CodeMoves.{columns, RowWorks, LoopFits, LoopWorks, RepeatFits};
ghost use Rattle.row_kinds.specs.CodeRows.{iter_form, iter_number, way_out, entry_of};

use crate::values::fits;
use evaluators::answers::{Answer, Failure, choice_in, next_start};
use evaluators::inputs::Inputs;
use kinds::{Counts, Row};
use loop_checks::loops::matching_end;
use machine::{Move, Worked};
use prepared::Form;
use prepared::forms::number_of;
use prepared::own::row_word;
use prepared::places::class_in;
use row_kinds::operands::lost;

// The form of value that an iterator holds, and the number of it for a start.
fn iterator_form(class: bool) -> Form
    ensures { number_of_form result ≡ iter_form class }
{
    if class { Form::Class } else { Form::Uint }
}

fn iterator_number(own: &[u32; 5256], class: bool, from: u32) -> u32
    ensures { result ≡ iter_number (places_of own.now) class from }
{
    if class { class_in(own, from) } else { from }
}

// The row to go to where a loop is not entered: past the row `here` that repeats it, or past its end row.
fn way_out(own: &[u32; 5256], here: u32, row: u32, again: bool) -> Option<usize>
    requires { (rows_of own.now ≤ 256) × (here < 256) }
    ensures { result ≡ way_out own.now here row again }
{
    if again {
        return Some(here as usize + 1);
    }
    let rows = own[134] as usize;
    let r = row as usize;
    if rows <= r {
        return None;
    }
    let counts = Counts {
        decls: 34,
        nodes: 1024,
        rows,
    };
    let end = matching_end(own, counts, r);
    if end < rows {
        return Some(end + 1);
    }
    None
}

// Loop entry, of the loop of a row from a start to an end, inside `depth` open loops.
pub fn entry<'a>(
    inputs: &Inputs<'a>,
    row: u32,
    class: bool,
    from: u32,
    upto: u32,
    depth: u32,
    again: bool,
    at: usize,
) -> Worked
    requires { (decls_of inputs.now.own.now ≤ 32) × (rows_of inputs.now.own.now ≤ 256) × (inputs.now.machine.now.row < 256) × (row < 256) }
    ensures { result ≡ entry_of inputs.now.own.now inputs.now.machine.now.numbers inputs.now.machine.now.row row class from upto depth again at }
{
    let own = inputs.own;
    let a = row_word(own, row, 1) as usize;
    let v = iterator_number(own, class, from);
    if fits(inputs, a, number_of(iterator_form(class))) {
        if from <= upto {
            return Worked::Moves(Move::Enters(a, v, row, depth, from, upto), at);
        }
        let x = way_out(own, inputs.machine.row, row, again);
        let Some(next) = x else {
            return Worked::Not(Failure::Stuck, at);
        };
        return Worked::Moves(Move::Leaves(a, v, depth, next as u32), at);
    }
    Worked::Not(Failure::Stuck, at)
}

// The loop of a row with start x and end y; a marked one takes a choice in the class of each (rule 3.20).
pub fn loop_at<'a>(
    inputs: &Inputs<'a>,
    row: u32,
    class: bool,
    x: u32,
    y: u32,
    depth: u32,
    again: bool,
    at: usize,
) -> Worked
    requires { LoopFits inputs.now.own.now inputs.now.machine.now.numbers inputs.now.machine.now.row row depth }
    ensures { LoopWorks inputs.now.own.now inputs.now.machine.now.numbers inputs.now.list.now inputs.now.machine.now.row row class x y depth again at result }
{
    if class {
        let own = inputs.own;
        let p = choice_in(own, inputs.list, class_in(own, x), at);
        let Answer::Uint(v, next) = p else {
            return lost(p);
        };
        let q = choice_in(own, inputs.list, class_in(own, y), next);
        let Answer::Uint(w, last) = q else {
            return lost(q);
        };
        return entry(inputs, row, true, v, w, depth, again, last);
    }
    entry(inputs, row, false, x, y, depth, again, at)
}

// Row 39.
pub fn repeated<'a>(inputs: &Inputs<'a>, at: usize) -> Worked
    requires { RepeatFits inputs.now.own.now inputs.now.machine.now.numbers inputs.now.machine.now.loop_rows inputs.now.machine.now.starts
        inputs.now.machine.now.ends inputs.now.machine.now.row inputs.now.machine.now.«open» }
    ensures { (a b c count : ℕ) (stack bs fs ls hs cells : List ℕ) → RowWorks inputs.now.own.now stack
        (columns inputs.now.machine.now.row inputs.now.machine.now.numbers bs inputs.now.machine.now.«open» inputs.now.machine.now.loop_rows
        inputs.now.machine.now.starts inputs.now.machine.now.ends count fs ls hs) cells
        inputs.now.list.now loop_end a b c (drop at inputs.now.list.now) result }
{
    let m = inputs.machine;
    let open = m.open;
    if open == 0 {
        return Worked::Not(Failure::Stuck, at);
    }
    let depth = open - 1;
    let i = depth as usize;
    let row = m.loop_rows[i];
    let end = m.ends[i];
    let x = next_start(m.starts[i], at);
    let Answer::Uint(from, next) = x else {
        return lost(x);
    };
    let kind = row_word(inputs.own, row, 0);
    match Row::from(kind) {
        Row::Loop => loop_at(inputs, row, false, from, end, depth, true, next),
        Row::ClassLoop => loop_at(inputs, row, true, from, end, depth, true, next),
        _ => Worked::Not(Failure::Stuck, at),
    }
}
