// Constants and variables: what a variable holds, to a user of each type; and the nodes that answer by themselves, outside the cycle of the
// evaluators. What is public here is for our crates above, which see to what it requires.
ghost use Rattle.std.specs.Prelude.{◌≡◌, true, ◌≤◌};
ghost use Rattle.model.specs.Table.Ty.{bool, uint};
ghost use Rattle.prepared.specs.Own.{decls_of};
ghost use Rattle.evaluators.specs.CodeLeaves.{HoldsFor, leaf_at, HoldsPointer, ClassChoice, UintLeaf, PointerLeaf};

use crate::answers::{Answer, Failure, choice_in};
use crate::inputs::Inputs;
use crate::nodes::wide;
use prepared::Form;
use prepared::forms::form_at;
use prepared::own::NODES;

// Variable a, to a user that takes a uint. The number of a bool that is neither 0 nor 1, which 15 refuses, reads as a uint.
pub fn uint_variable<'a>(inputs: &Inputs<'a>, a: usize, at: usize) -> Answer
    requires { decls_of inputs.now.own.now ≤ 32 }
    ensures { HoldsFor uint inputs.now.own.now inputs.now.machine.now.numbers a at result }
{
    let own = inputs.own;
    if own[133] as usize <= a {
        return Answer::Not(Failure::Stuck, at);
    }
    let form = form_at(own, a);
    let x = inputs.machine.numbers[a];
    match form {
        Form::Uint => Answer::Uint(x, at),
        Form::Bool => {
            if x <= 1 {
                return Answer::Not(Failure::Stuck, at);
            }
            Answer::Uint(x, at)
        }
        _ => Answer::Not(Failure::Stuck, at),
    }
}

// ... a bool.
pub fn bool_variable<'a>(inputs: &Inputs<'a>, a: usize, at: usize) -> Answer
    requires { decls_of inputs.now.own.now ≤ 32 }
    ensures { HoldsFor bool inputs.now.own.now inputs.now.machine.now.numbers a at result }
{
    let own = inputs.own;
    if own[133] as usize <= a {
        return Answer::Not(Failure::Stuck, at);
    }
    let form = form_at(own, a);
    let x = inputs.machine.numbers[a];
    let Form::Bool = form else {
        return Answer::Not(Failure::Stuck, at);
    };
    if x <= 1 {
        return Answer::Bool(x == 1, at);
    }
    Answer::Not(Failure::Stuck, at)
}

// ... a pointer, whose array must be one of the record's.
pub fn pointer_variable<'a>(inputs: &Inputs<'a>, a: usize, at: usize) -> Answer
    requires { decls_of inputs.now.own.now ≤ 32 }
    ensures { HoldsPointer inputs.now.own.now inputs.now.machine.now.numbers inputs.now.machine.now.bases inputs.now.machine.now.count a at result }
{
    let own = inputs.own;
    if own[133] as usize <= a {
        return Answer::Not(Failure::Stuck, at);
    }
    let form = form_at(own, a);
    let to = inputs.machine.bases[a];
    let Form::Pointer = form else {
        return Answer::Not(Failure::Stuck, at);
    };
    if to <= inputs.machine.count {
        return Answer::Pointer(to, inputs.machine.numbers[a], at);
    }
    Answer::Not(Failure::Stuck, at)
}

// 27: a choice in the class that a variable holds.
pub fn class_choice<'a>(inputs: &Inputs<'a>, a: usize, at: usize) -> Answer
    requires { decls_of inputs.now.own.now ≤ 32 }
    ensures { ClassChoice inputs.now.own.now inputs.now.machine.now.numbers a inputs.now.list.now at result }
{
    let own = inputs.own;
    if own[133] as usize <= a {
        return Answer::Not(Failure::Stuck, at);
    }
    let form = form_at(own, a);
    let Form::Class = form else {
        return Answer::Not(Failure::Stuck, at);
    };
    choice_in(own, inputs.list, inputs.machine.numbers[a], at)
}

// Whether a node, an operand of `user`, answers by itself: a variable, a constant, or what is no operand of its user.
pub fn is_leaf(own: &[u32; 5256], node: usize, user: usize) -> bool
    requires { user ≤ 1024 }
    ensures { result ≡ leaf_at own.now user node }
{
    user <= node || own[NODES + 4 * node] <= 17
}

// Such a node, to a user that takes a uint.
pub fn uint_leaf<'a>(inputs: &Inputs<'a>, node: usize, user: usize, at: usize) -> Answer
    requires { (decls_of inputs.now.own.now ≤ 32) × (user ≤ 1024) × (leaf_at inputs.now.own.now user node ≡ true) }
    ensures { UintLeaf inputs.now.own.now inputs.now.machine.now.numbers user node at result }
{
    let own = inputs.own;
    if user <= node {
        return Answer::Not(Failure::Stuck, at);
    }
    let i = NODES + 4 * node;
    let kind = own[i];
    let k = own[i + 1];
    match kind {
        16 => uint_variable(inputs, wide(k), at),
        17 => Answer::Uint(k, at),
        _ => Answer::Not(Failure::Stuck, at),
    }
}

// ... a pointer.
pub fn pointer_leaf<'a>(inputs: &Inputs<'a>, node: usize, user: usize, at: usize) -> Answer
    requires { (decls_of inputs.now.own.now ≤ 32) × (user ≤ 1024) × (leaf_at inputs.now.own.now user node ≡ true) }
    ensures { PointerLeaf inputs.now.own.now inputs.now.machine.now.numbers inputs.now.machine.now.bases inputs.now.machine.now.count user node at result }
{
    let own = inputs.own;
    if user <= node {
        return Answer::Not(Failure::Stuck, at);
    }
    let i = NODES + 4 * node;
    let kind = own[i];
    if kind == 16 {
        return pointer_variable(inputs, wide(own[i + 1]), at);
    }
    Answer::Not(Failure::Stuck, at)
}
