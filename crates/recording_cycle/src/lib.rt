// The three recording evaluators, in a cycle as those of the crate `node_cycle`: each works out a node of the plain machine for the type that its
// user takes, and pushes the node's numbers onto `out` from the place `at` on; the place in its answer is the one after them. `user` is the
// number that the node must be below; it falls at every call. The table is a plain one: it has no node of the kinds 27 to 29.
// held says of each array whether the reduced run holds it reduced, by a 1.
// For our crates above, which see to what is required.
#![tactic(auto)]

ghost use Rattle.std.specs.Prelude.{◌≤◌};
ghost use Rattle.model.specs.Table.Ty.{bool, uint, pointer};
ghost use Rattle.prepared.specs.Own.{decls_of};
ghost use Rattle.recording.specs.CodeRecords.{Plain, RecordsFrom};

use evaluators::answers::{Answer, Failure, branch_of, compared, computed, shifted};
use evaluators::arrays::valid;
use evaluators::inputs::Inputs;
use evaluators::leaves::{bool_variable, is_leaf, pointer_leaf, pointer_variable};
use evaluators::nodes::{Node, node_at};
use recording::leaves::{record_cell, record_leaf, record_variable};

// A node that is an operand of `user`, which takes a pointer.
#[cycle(record_bool_record_pointer_record_uint)]
pub fn record_pointer<'a>(
    node: usize,
    user: usize,
    at: usize,
    inputs: &Inputs<'a>,
    held: &[u8; 16],
    out: &mut [u32],
) -> Answer
    requires { Plain inputs.now.own.now × (decls_of inputs.now.own.now ≤ 32) × (inputs.now.machine.now.count ≤ 16) × (user ≤ 1024) }
    ensures { RecordsFrom pointer inputs.now held.now user node at result out.old out.new }
{
    if user <= node {
        return Answer::Not(Failure::Stuck, at);
    }
    let n = node_at(inputs.own, node);
    match n {
        Node::Variable(a) => pointer_variable(inputs, a, at),
        Node::Arith(minus, a, b) => {
            let x = if is_leaf(inputs.own, a, node) {
                pointer_leaf(inputs, a, node, at)
            } else {
                record_pointer(a, node, at, inputs, held, out)
            };
            let Answer::Pointer(to, v, next) = x else {
                return x;
            };
            let y = if is_leaf(inputs.own, b, node) {
                record_leaf(inputs, out, b, node, next)
            } else {
                record_uint(b, node, next, inputs, held, out)
            };
            let Answer::Uint(w, last) = y else {
                return y;
            };
            shifted(minus, to, v, w, last)
        }
        Node::If(a, b, c) => {
            let x = record_bool(a, node, at, inputs, held, out);
            let Answer::Bool(yes, next) = x else {
                return x;
            };
            let j = branch_of(yes, b, c);
            let y = if is_leaf(inputs.own, j, node) {
                pointer_leaf(inputs, j, node, next)
            } else {
                record_pointer(j, node, next, inputs, held, out)
            };
            let Answer::Pointer(to, v, last) = y else {
                return y;
            };
            Answer::Pointer(to, v, last)
        }
        _ => Answer::Not(Failure::Stuck, at),
    }
}

// ... which takes a uint.
#[cycle(record_bool_record_pointer_record_uint)]
pub fn record_uint<'a>(
    node: usize,
    user: usize,
    at: usize,
    inputs: &Inputs<'a>,
    held: &[u8; 16],
    out: &mut [u32],
) -> Answer
    requires { Plain inputs.now.own.now × (decls_of inputs.now.own.now ≤ 32) × (inputs.now.machine.now.count ≤ 16) × (user ≤ 1024) }
    ensures { RecordsFrom uint inputs.now held.now user node at result out.old out.new }
{
    if user <= node {
        return Answer::Not(Failure::Stuck, at);
    }
    let n = node_at(inputs.own, node);
    match n {
        Node::Variable(a) => record_variable(inputs, out, a, at),
        Node::Constant(k) => Answer::Uint(k, at),
        Node::Cell(_, a) => {
            let x = if is_leaf(inputs.own, a, node) {
                pointer_leaf(inputs, a, node, at)
            } else {
                record_pointer(a, node, at, inputs, held, out)
            };
            let Answer::Pointer(to, v, next) = x else {
                return x;
            };
            record_cell(inputs, held, out, to, v, next)
        }
        Node::Arith(minus, a, b) => {
            let x = if is_leaf(inputs.own, a, node) {
                record_leaf(inputs, out, a, node, at)
            } else {
                record_uint(a, node, at, inputs, held, out)
            };
            let Answer::Uint(v, next) = x else {
                return x;
            };
            let y = if is_leaf(inputs.own, b, node) {
                record_leaf(inputs, out, b, node, next)
            } else {
                record_uint(b, node, next, inputs, held, out)
            };
            let Answer::Uint(w, last) = y else {
                return y;
            };
            computed(minus, v, w, last)
        }
        Node::If(a, b, c) => {
            let x = record_bool(a, node, at, inputs, held, out);
            let Answer::Bool(yes, next) = x else {
                return x;
            };
            let j = branch_of(yes, b, c);
            let y = if is_leaf(inputs.own, j, node) {
                record_leaf(inputs, out, j, node, next)
            } else {
                record_uint(j, node, next, inputs, held, out)
            };
            let Answer::Uint(v, last) = y else {
                return y;
            };
            Answer::Uint(v, last)
        }
        _ => Answer::Not(Failure::Stuck, at),
    }
}

// ... which takes a bool.
#[cycle(record_bool_record_pointer_record_uint)]
pub fn record_bool<'a>(
    node: usize,
    user: usize,
    at: usize,
    inputs: &Inputs<'a>,
    held: &[u8; 16],
    out: &mut [u32],
) -> Answer
    requires { Plain inputs.now.own.now × (decls_of inputs.now.own.now ≤ 32) × (inputs.now.machine.now.count ≤ 16) × (user ≤ 1024) }
    ensures { RecordsFrom bool inputs.now held.now user node at result out.old out.new }
{
    if user <= node {
        return Answer::Not(Failure::Stuck, at);
    }
    let n = node_at(inputs.own, node);
    match n {
        Node::Variable(a) => bool_variable(inputs, a, at),
        Node::Flag(b) => Answer::Bool(b, at),
        Node::Compare(test, a, b) => {
            let x = if is_leaf(inputs.own, a, node) {
                record_leaf(inputs, out, a, node, at)
            } else {
                record_uint(a, node, at, inputs, held, out)
            };
            let Answer::Uint(v, next) = x else {
                return x;
            };
            let y = if is_leaf(inputs.own, b, node) {
                record_leaf(inputs, out, b, node, next)
            } else {
                record_uint(b, node, next, inputs, held, out)
            };
            let Answer::Uint(w, last) = y else {
                return y;
            };
            compared(test, v, w, last)
        }
        Node::If(a, b, c) => {
            let x = record_bool(a, node, at, inputs, held, out);
            let Answer::Bool(yes, next) = x else {
                return x;
            };
            let j = branch_of(yes, b, c);
            let y = record_bool(j, node, next, inputs, held, out);
            let Answer::Bool(v, last) = y else {
                return y;
            };
            Answer::Bool(v, last)
        }
        Node::Valid(a) => {
            let x = if is_leaf(inputs.own, a, node) {
                pointer_leaf(inputs, a, node, at)
            } else {
                record_pointer(a, node, at, inputs, held, out)
            };
            let Answer::Pointer(to, v, next) = x else {
                return x;
            };
            valid(inputs.machine, to, v, next)
        }
        _ => Answer::Not(Failure::Stuck, at),
    }
}
