// Row 33: a variable gets the value of a node.
ghost use Rattle.std.specs.Prelude.{◌≡◌, List, ℕ, ◌<◌, ◌≤◌, ◌^◌, drop, length};
ghost use Rattle.model.specs.Table.Row.{assign};
ghost use Rattle.prepared.specs.Own.{decls_of, number_of_form};
ghost use Rattle.machine.specs.CodeMoves.{columns, BoolsFit, RowWorks};
ghost use Rattle.row_kinds.specs.CodeRows.{held_form, fits_in, put_of, put_bool, put_uint, put_pointer};

use evaluators::answers::{Answer, Failure};
use evaluators::inputs::Inputs;
use kinds::Ty;
use lists::word_or_zero;
use machine::{Move, Worked};
use node_cycle::{bool_at, pointer_at, uint_at};
use prepared::Form;
use prepared::forms::{form_at, number_of};
use row_kinds::operands::lost;

// The form of value that a variable of a form with a number holds, as a number: 1 bool, 2 uint, 3 pointer, 4 class; 0 for a bool with another
// number than 0 and 1, which takes no value.
fn held_form(form: Form, x: u32) -> u32
    ensures { result ≡ held_form form x }
{
    match form {
        Form::Bool if x <= 1 => 1,
        Form::Bool => 0,
        Form::Uint => 2,
        Form::Class => 4,
        Form::Pointer => 3,
    }
}

// Whether variable a is there and holds what this number stands for (`held_form`): a value of a form, or for 0 a bool that is none.
pub fn fits<'a>(inputs: &Inputs<'a>, a: usize, form: u32) -> bool
    requires { decls_of inputs.now.own.now ≤ 32 }
    ensures { result ≡ fits_in inputs.now.own.now inputs.now.machine.now.numbers a form }
{
    if inputs.own[133] as usize <= a {
        return false;
    }
    let held = form_at(inputs.own, a);
    held_form(held, inputs.machine.numbers[a]) == form
}

// Variable a gets a value of the form; stuck where it holds none of that form.
fn put<'a>(inputs: &Inputs<'a>, a: usize, form: Form, number: u32, base: u32, at: usize) -> Worked
    requires { decls_of inputs.now.own.now ≤ 32 }
    ensures { result ≡ put_of inputs.now.own.now inputs.now.machine.now.numbers a (number_of_form form) number base at }
{
    if fits(inputs, a, number_of(form)) {
        return Worked::Moves(Move::Puts(a, number, base), at);
    }
    Worked::Not(Failure::Stuck, at)
}

// Row 33 with its value worked out, for a variable of each type: each takes the answer of its own type, and no other.
pub fn put_bool<'a>(inputs: &Inputs<'a>, a: usize, x: Answer) -> Worked
    requires { decls_of inputs.now.own.now ≤ 32 }
    ensures { result ≡ put_bool inputs.now.own.now inputs.now.machine.now.numbers a x }
{
    let Answer::Bool(v, at) = x else {
        return lost(x);
    };
    put(inputs, a, Form::Bool, u32::from(v), 0, at)
}

pub fn put_uint<'a>(inputs: &Inputs<'a>, a: usize, x: Answer) -> Worked
    requires { decls_of inputs.now.own.now ≤ 32 }
    ensures { result ≡ put_uint inputs.now.own.now inputs.now.machine.now.numbers a x }
{
    let Answer::Uint(v, at) = x else {
        return lost(x);
    };
    put(inputs, a, Form::Uint, v, 0, at)
}

pub fn put_pointer<'a>(inputs: &Inputs<'a>, a: usize, x: Answer) -> Worked
    requires { decls_of inputs.now.own.now ≤ 32 }
    ensures { result ≡ put_pointer inputs.now.own.now inputs.now.machine.now.numbers a x }
{
    let Answer::Pointer(to, place, at) = x else {
        return lost(x);
    };
    put(inputs, a, Form::Pointer, place, to, at)
}

// Row 33.
pub fn assigned<'a>(a: usize, b: usize, at: usize, inputs: &Inputs<'a>) -> Worked
    requires own_bound { (decls_of inputs.now.own.now ≤ 32) × (inputs.now.machine.now.count ≤ 16) × (a < 2 ^ 32)
        × BoolsFit inputs.now.own.now inputs.now.machine.now.numbers }
    requires ns_len { (length inputs.now.machine.now.numbers ≡ 32) × (length inputs.now.machine.now.bases ≡ 32) }
    ensures { (row «open» c : ℕ) (stack rows starts ends : List ℕ) → RowWorks inputs.now.own.now stack
        (columns row inputs.now.machine.now.numbers inputs.now.machine.now.bases «open» rows starts ends inputs.now.machine.now.count
        inputs.now.machine.now.firsts inputs.now.machine.now.lengths inputs.now.machine.now.shapes) inputs.now.cells.now
        inputs.now.list.now assign a b c (drop at inputs.now.list.now) result }
{
    let own = inputs.own;
    let kind = word_or_zero(own, 4 * a);
    match Ty::from(kind) {
        Ty::Bool => put_bool(inputs, a, bool_at(b, 1024, at, inputs)),
        Ty::Uint => put_uint(inputs, a, uint_at(b, 1024, at, inputs)),
        Ty::Pointer => put_pointer(inputs, a, pointer_at(b, 1024, at, inputs)),
    }
}
