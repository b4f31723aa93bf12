// A node's line, taken apart by its kind. For our crates above, which see to what is required.
ghost use Rattle.std.specs.Prelude.{◌≡◌, ◌<◌};
ghost use Rattle.model.specs.Table.{node_kind};
ghost use Rattle.evaluators.specs.CodeLeaves.{decoded, node_in};

use prepared::own::NODES;

// What 22, 23 and 24 ask of two numbers.
#[derive(Clone, Copy)]
pub enum Test {
    Less,
    AtMost,
    Equal,
}

// A node with its operands. 19 and 28 differ by whether a place is tracked, 20 and 21 by whether they subtract.
#[derive(Clone, Copy)]
pub enum Node {
    Variable(usize),
    Constant(u32),
    Flag(bool),
    Cell(bool, usize),
    Arith(bool, usize, usize),
    Compare(Test, usize, usize),
    If(usize, usize, usize),
    Valid(usize),
    InClass(usize),
    Nothing,
}

// A word as the number of a variable or a node.
pub fn wide(x: u32) -> usize
    ensures { result ≡ x }
{
    x as usize
}

// The first operand as a number, and all three as numbers of variables or nodes.
fn make(kind: u32, k: u32, a: usize, b: usize, c: usize) -> Node
    ensures { result ≡ decoded (node_kind kind) k a b c }
{
    match kind {
        16 => Node::Variable(a),
        17 => Node::Constant(k),
        18 => Node::Flag(k == 1),
        19 => Node::Cell(false, a),
        20 => Node::Arith(false, a, b),
        21 => Node::Arith(true, a, b),
        22 => Node::Compare(Test::Less, a, b),
        23 => Node::Compare(Test::AtMost, a, b),
        24 => Node::Compare(Test::Equal, a, b),
        25 => Node::If(a, b, c),
        26 => Node::Valid(a),
        27 => Node::InClass(a),
        28 => Node::Cell(true, a),
        29 => Node::Valid(a),
        _ => Node::Nothing,
    }
}

// Node number `node`, which must be one of the copy's.
pub fn node_at(own: &[u32; 5256], node: usize) -> Node
    requires { node < 1024 }
    ensures { result ≡ node_in own.now node }
{
    let i = NODES + 4 * node;
    make(
        own[i],
        own[i + 1],
        wide(own[i + 1]),
        wide(own[i + 2]),
        wide(own[i + 3]),
    )
}
