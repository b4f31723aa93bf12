// The form of value that a variable holds: by its declaration in a table, and as a number in the run's own copy.
// What is public here is for our crates above, which see to what it requires.
ghost use Rattle.std.specs.Prelude.{◌≡◌, ◌<◌};
ghost use Rattle.prepared.specs.View.{form_in};
ghost use Rattle.prepared.specs.Own.{own_form, number_of_form};

use crate::{Form, Frame};
use kinds::Ty;
use lists::word_or_zero;

// By the declaration of variable a.
pub fn form_of(t: &[u32], f: Frame, a: usize) -> Form
    requires { a < 32 }
    ensures { result ≡ form_in t.now f a }
{
    let kind = word_or_zero(t, 4 * a);
    let mark = word_or_zero(t, 4 * a + 1);
    match Ty::from(kind) {
        Ty::Bool => Form::Bool,
        Ty::Uint if f.classes && mark == 1 => Form::Class,
        Ty::Uint => Form::Uint,
        Ty::Pointer => Form::Pointer,
    }
}

// The number of a form, for the copy, which is words: 1 bool, 2 uint, 3 pointer, 4 class.
pub fn number_of(form: Form) -> u32
    ensures { result ≡ number_of_form form }
{
    match form {
        Form::Bool => 1,
        Form::Uint => 2,
        Form::Class => 4,
        Form::Pointer => 3,
    }
}

// By the number in the copy.
pub fn form_at(own: &[u32; 5256], a: usize) -> Form
    requires { a < 32 }
    ensures { result ≡ own_form own.now a }
{
    let number = own[4 * a + 3];
    match number {
        1 => Form::Bool,
        2 => Form::Uint,
        3 => Form::Pointer,
        _ => Form::Class,
    }
}
