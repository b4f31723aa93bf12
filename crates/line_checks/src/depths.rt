// The depth of a node by recursion into its operands, each kept in a lent buffer so that it is worked out once, and check 10.
ghost use Rattle.std.specs.Prelude.{◌≡◌, ◌+◌, ◌*◌, ◌/◌, ◌<◌, ◌≤◌, length};
ghost use Rattle.lists.specs.First.{first};
ghost use Rattle.kinds.specs.Kinds.{role_said};
ghost use Rattle.kinds.specs.Code.{table_in, InSorts};
ghost use Rattle.line_checks.specs.Rules.{depth, breaks10};
ghost use Rattle.line_checks.specs.Code.{depth_under, Kept};

use kinds::{Lines, Role, roles_of};

const MOST: u32 = 12;

// The depth of a node, worked out once and kept.
#[cycle(depth_of_line_depth_operand_depth)]
fn depth_of(lines: Lines, depths: &mut [u32], node: usize) -> u32
    requires in_sorts { InSorts (table_in lines) }
    requires depths_len { (length depths.old ≡ 1024) × (node < lines.counts.nodes) × Kept (table_in lines) depths.old }
    ensures value { (result ≡ depth (table_in lines.entry) node) × (result ≤ node + 1) }
    ensures depths_len_2 { (length depths.new ≡ 1024) × Kept (table_in lines.entry) depths.new }
{
    let kept = depths[node];
    if kept != 0 {
        return kept;
    }
    let d = line_depth(lines, depths, node);
    depths[node] = d;
    d
}

// 1 and the greatest depth of a node's operands.
#[cycle(depth_of_line_depth_operand_depth)]
fn line_depth(lines: Lines, depths: &mut [u32], node: usize) -> u32
    requires in_sorts { InSorts (table_in lines) }
    requires depths_len { (length depths.old ≡ 1024) × (node < lines.counts.nodes) × Kept (table_in lines) depths.old }
    ensures value { (result ≡ depth (table_in lines.entry) node) × (result ≤ node + 1) }
    ensures depths_len_2 { (length depths.new ≡ 1024) × Kept (table_in lines.entry) depths.new }
{
    let w = 4 * (lines.counts.decls + node);
    let roles = roles_of(lines.words[w]);
    let a = operand_depth(lines, depths, node, roles.a, lines.words[w + 1]);
    let b = operand_depth(lines, depths, node, roles.b, lines.words[w + 2]);
    let c = operand_depth(lines, depths, node, roles.c, lines.words[w + 3]);
    1 + a.max(b.max(c))
}

// The depth of an operand of a node; 0 where it names no smaller node.
#[cycle(depth_of_line_depth_operand_depth)]
fn operand_depth(lines: Lines, depths: &mut [u32], node: usize, role: Role, x: u32) -> u32
    requires in_sorts { InSorts (table_in lines) }
    requires depths_len { (length depths.old ≡ 1024) × (node < lines.counts.nodes) × Kept (table_in lines) depths.old }
    ensures value { (result ≡ depth_under (table_in lines.entry) node (role_said role) x) × (result ≤ node) }
    ensures depths_len_2 { (length depths.new ≡ 1024) × Kept (table_in lines.entry) depths.new }
{
    let i = x as usize;
    if (role == Role::Node) & (i < node) {
        return depth_of(lines, depths, i);
    }
    0
}

// 10
fn breaks_10(lines: Lines, depths: &mut [u32], line: usize) -> bool
    requires in_sorts { InSorts (table_in lines) }
    requires depths_len { (length depths.old ≡ 1024) × (4 * line + 3 < length lines.words.now) × Kept (table_in lines) depths.old }
    ensures value { result ≡ breaks10 (table_in lines.entry) line }
    ensures depths_len_2 { (length depths.new ≡ 1024) × Kept (table_in lines.entry) depths.new }
{
    let decls = lines.counts.decls;
    if line < decls {
        return false;
    }
    let n = line - decls;
    if n < lines.counts.nodes {
        return MOST < depth_of(lines, depths, n);
    }
    false
}

// 10: the first line that breaks it.
pub fn first_deep(lines: Lines) -> Option<usize>
    requires { InSorts (table_in lines) }
    ensures { result ≡ first (breaks10 (table_in lines.entry)) 0 (length lines.entry.words.now / 4) }
{
    let mut depths = [0u32; 1024];
    for i in 0..lines.words.len() / 4 {
        if breaks_10(lines, &mut depths, i) {
            return Some(i);
        }
    }
    None
}
