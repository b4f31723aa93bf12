// The three evaluators, in a cycle: each is the model's own `eval` for the type that its user takes. `user` is the number that the node must
// be below: its user's own, or 1,024, the copy's number of nodes, for a row. It falls at every call, to the number of the node that is worked
// out. An operand that is a constant or a variable is answered by a function outside the cycle, which saves most of the calls.
// An answer is taken apart and made anew, which is quicker than to hand it on whole; one that has no value is handed on as it is.
// For our crates above, which see to what is required.
#![tactic(auto)]

ghost use Rattle.std.specs.Prelude.{◌≤◌};
ghost use Rattle.model.specs.Table.Ty.{bool, uint, pointer};
ghost use Rattle.prepared.specs.Own.{decls_of};
ghost use Rattle.evaluators.specs.CodeInputs.{WorksOutFrom};

use evaluators::answers::{Answer, Failure, branch_of, compared, computed, shifted};
use evaluators::arrays::{cell, valid};
use evaluators::inputs::Inputs;
use evaluators::leaves::{
    bool_variable, class_choice, is_leaf, pointer_leaf, pointer_variable, uint_leaf, uint_variable,
};
use evaluators::nodes::{Node, node_at};

// A node that is an operand of `user`, which takes a pointer.
#[cycle(bool_at_pointer_at_uint_at)]
pub fn pointer_at<'a>(node: usize, user: usize, at: usize, inputs: &Inputs<'a>) -> Answer
    requires { (decls_of inputs.now.own.now ≤ 32) × (inputs.now.machine.now.count ≤ 16) × (user ≤ 1024) }
    ensures { WorksOutFrom pointer inputs.now user node at result }
{
    if user <= node {
        return Answer::Not(Failure::Stuck, at);
    }
    let n = node_at(inputs.own, node);
    match n {
        Node::Variable(a) => pointer_variable(inputs, a, at),
        Node::Arith(minus, a, b) => {
            let x = if is_leaf(inputs.own, a, node) {
                pointer_leaf(inputs, a, node, at)
            } else {
                pointer_at(a, node, at, inputs)
            };
            let Answer::Pointer(to, v, next) = x else {
                return x;
            };
            let y = if is_leaf(inputs.own, b, node) {
                uint_leaf(inputs, b, node, next)
            } else {
                uint_at(b, node, next, inputs)
            };
            let Answer::Uint(w, last) = y else {
                return y;
            };
            shifted(minus, to, v, w, last)
        }
        Node::If(a, b, c) => {
            let x = bool_at(a, node, at, inputs);
            let Answer::Bool(yes, next) = x else {
                return x;
            };
            let j = branch_of(yes, b, c);
            let y = if is_leaf(inputs.own, j, node) {
                pointer_leaf(inputs, j, node, next)
            } else {
                pointer_at(j, node, next, inputs)
            };
            let Answer::Pointer(to, v, last) = y else {
                return y;
            };
            Answer::Pointer(to, v, last)
        }
        _ => Answer::Not(Failure::Stuck, at),
    }
}

// ... which takes a uint.
#[cycle(bool_at_pointer_at_uint_at)]
pub fn uint_at<'a>(node: usize, user: usize, at: usize, inputs: &Inputs<'a>) -> Answer
    requires { (decls_of inputs.now.own.now ≤ 32) × (inputs.now.machine.now.count ≤ 16) × (user ≤ 1024) }
    ensures { WorksOutFrom uint inputs.now user node at result }
{
    if user <= node {
        return Answer::Not(Failure::Stuck, at);
    }
    let n = node_at(inputs.own, node);
    match n {
        Node::Variable(a) => uint_variable(inputs, a, at),
        Node::Constant(k) => Answer::Uint(k, at),
        Node::Cell(tracking, a) => {
            let x = if is_leaf(inputs.own, a, node) {
                pointer_leaf(inputs, a, node, at)
            } else {
                pointer_at(a, node, at, inputs)
            };
            let Answer::Pointer(to, v, next) = x else {
                return x;
            };
            cell(tracking, inputs, to, v, next)
        }
        Node::Arith(minus, a, b) => {
            let x = if is_leaf(inputs.own, a, node) {
                uint_leaf(inputs, a, node, at)
            } else {
                uint_at(a, node, at, inputs)
            };
            let Answer::Uint(v, next) = x else {
                return x;
            };
            let y = if is_leaf(inputs.own, b, node) {
                uint_leaf(inputs, b, node, next)
            } else {
                uint_at(b, node, next, inputs)
            };
            let Answer::Uint(w, last) = y else {
                return y;
            };
            computed(minus, v, w, last)
        }
        Node::If(a, b, c) => {
            let x = bool_at(a, node, at, inputs);
            let Answer::Bool(yes, next) = x else {
                return x;
            };
            let j = branch_of(yes, b, c);
            let y = if is_leaf(inputs.own, j, node) {
                uint_leaf(inputs, j, node, next)
            } else {
                uint_at(j, node, next, inputs)
            };
            let Answer::Uint(v, last) = y else {
                return y;
            };
            Answer::Uint(v, last)
        }
        Node::InClass(a) => class_choice(inputs, a, at),
        _ => Answer::Not(Failure::Stuck, at),
    }
}

// ... which takes a bool.
#[cycle(bool_at_pointer_at_uint_at)]
pub fn bool_at<'a>(node: usize, user: usize, at: usize, inputs: &Inputs<'a>) -> Answer
    requires { (decls_of inputs.now.own.now ≤ 32) × (inputs.now.machine.now.count ≤ 16) × (user ≤ 1024) }
    ensures { WorksOutFrom bool inputs.now user node at result }
{
    if user <= node {
        return Answer::Not(Failure::Stuck, at);
    }
    let n = node_at(inputs.own, node);
    match n {
        Node::Variable(a) => bool_variable(inputs, a, at),
        Node::Flag(b) => Answer::Bool(b, at),
        Node::Compare(test, a, b) => {
            let x = if is_leaf(inputs.own, a, node) {
                uint_leaf(inputs, a, node, at)
            } else {
                uint_at(a, node, at, inputs)
            };
            let Answer::Uint(v, next) = x else {
                return x;
            };
            let y = if is_leaf(inputs.own, b, node) {
                uint_leaf(inputs, b, node, next)
            } else {
                uint_at(b, node, next, inputs)
            };
            let Answer::Uint(w, last) = y else {
                return y;
            };
            compared(test, v, w, last)
        }
        Node::If(a, b, c) => {
            let x = bool_at(a, node, at, inputs);
            let Answer::Bool(yes, next) = x else {
                return x;
            };
            let j = branch_of(yes, b, c);
            let y = bool_at(j, node, next, inputs);
            let Answer::Bool(v, last) = y else {
                return y;
            };
            Answer::Bool(v, last)
        }
        Node::Valid(a) => {
            let x = if is_leaf(inputs.own, a, node) {
                pointer_leaf(inputs, a, node, at)
            } else {
                pointer_at(a, node, at, inputs)
            };
            let Answer::Pointer(to, v, next) = x else {
                return x;
            };
            valid(inputs.machine, to, v, next)
        }
        _ => Answer::Not(Failure::Stuck, at),
    }
}
