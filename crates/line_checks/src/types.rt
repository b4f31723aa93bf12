// The types of nodes as numbers (1 bool, 2 uint, 3 pointer), kept in a buffer in rising order, and check 9.
ghost use Rattle.std.specs.Prelude.{◌≡◌, ◌+◌, ◌*◌, ◌<◌, ◌≤◌, length};
ghost use Rattle.kinds.specs.Code.{table_in, InSorts, There, LocalsFit};
ghost use Rattle.line_checks.specs.Rules.{breaks9};
ghost use Rattle.line_checks.specs.Code.{kept_type, type_below, variable_type, line_type, operands_typed, locals_uints, line_typed, Types};

use kinds::{BOOL, Lines, Node, POINTER, Ty, UINT, is_typed, opens_procedure, result_type};
use lists::word_or_zero;

// The number that the buffer has for a node past its end: no type.
const NO_TYPE: u32 = 0;

fn variable_type(words: &[u32], x: u32) -> u32
    ensures { result ≡ variable_type words.now x }
{
    let i = x as usize;
    match Ty::from(word_or_zero(words, 4 * i)) {
        Ty::Bool => BOOL,
        Ty::Uint => UINT,
        Ty::Pointer => POINTER,
    }
}

// The type that the buffer has for a node, none past its end.
fn kept_type(types: &[u32], x: u32) -> u32
    ensures { result ≡ kept_type types.now x }
{
    let i = x as usize;
    if i < types.len() { types[i] } else { NO_TYPE }
}

// The type of an operand of a node; bool where it is not smaller.
fn type_below(types: &[u32], node: usize, x: u32) -> u32
    ensures { result ≡ type_below types.now node x }
{
    let i = x as usize;
    if i < node { kept_type(types, x) } else { BOOL }
}

// The type of the node at a line, from those of smaller nodes.
fn line_type(words: &[u32], types: &[u32], line: usize, node: usize) -> u32
    requires { 4 * line + 3 < length words.now }
    ensures { result ≡ line_type words.now types.now line node }
{
    let w = 4 * line;
    let a = words[w + 1];
    let v = variable_type(words, a);
    let x = type_below(types, node, a);
    let y = type_below(types, node, words[w + 2]);
    result_type(Node::from(words[w]), v, x, y)
}

// The types of all nodes, in rising order.
pub fn fill_types(lines: Lines, types: &mut [u32])
    requires in_sorts { InSorts (table_in lines) }
    requires types_len { length types.old ≡ 1024 }
    ensures types { Types (table_in lines.entry) types.new lines.entry.counts.nodes }
    ensures types_len_2 { length types.new ≡ 1024 }
{
    for n in 0..lines.counts.nodes {
        types[n] = line_type(lines.words, types, lines.counts.decls + n, n);
    }
}

// Whether the types of a line's operands are as its kind asks.
fn operands_typed(words: &[u32], types: &[u32], line: usize) -> bool
    requires { 4 * line + 3 < length words.now }
    ensures { result ≡ operands_typed words.now types.now line }
{
    let w = 4 * line;
    let a = words[w + 1];
    let c = words[w + 3];
    let v = variable_type(words, a);
    let u = variable_type(words, c);
    let x = kept_type(types, a);
    let y = kept_type(types, words[w + 2]);
    let z = kept_type(types, c);
    is_typed(words[w], v, u, x, y, z)
}

// Whether the locals of a 43, `count` from a on, are uints.
fn locals_uints(words: &[u32], a: u32, count: u32) -> bool
    requires { (count ≡ 0 → ⊥) → a + count ≤ 32 }
    ensures { result ≡ locals_uints words.now a count }
{
    for i in 0..count {
        if variable_type(words, a + i) != UINT {
            return false;
        }
    }
    true
}

// Whether a line is typed as 9 asks: a 43 by its locals, any other by its operands.
fn line_typed(words: &[u32], types: &[u32], line: usize) -> bool
    requires { (4 * line + 3 < length words.now) × LocalsFit words.now line }
    ensures { result ≡ line_typed words.now types.now line }
{
    let w = 4 * line;
    if opens_procedure(words[w]) {
        return locals_uints(words, words[w + 1], words[w + 2]);
    }
    operands_typed(words, types, line)
}

// 9
pub fn breaks_9(lines: Lines, types: &[u32], line: usize) -> bool
    requires in_sorts { InSorts (table_in lines) }
    requires there { There (table_in lines) }
    requires types { Types (table_in lines) types.now lines.counts.nodes }
    requires line_in_bounds { 4 * line + 3 < length lines.words.now }
    ensures { result ≡ breaks9 (table_in lines.entry) line }
{
    if line < lines.counts.decls {
        return false;
    }
    !line_typed(lines.words, types, line)
}
