// Checks 5 to 8: each is a test of one line, by the counts.
ghost use Rattle.std.specs.Prelude.{◌≡◌, ◌+◌, ◌-◌, ◌*◌, ◌/◌, ◌<◌, ◌≤◌, length, get_or};
ghost use Rattle.model.specs.Table.{line_at, row_kind};
ghost use Rattle.model.specs.Accepted.{all_there, locals_there};
ghost use Rattle.kinds.specs.Kinds.{machine_of, roles_of};
ghost use Rattle.kinds.specs.Code.{table_in, InSorts};
ghost use Rattle.line_checks.specs.Rules.{breaks5, breaks6, breaks7, breaks8};

use kinds::{Kind, Lines, is_known, is_there, opens_procedure, roles_of, sort_of, suits};

// 5: an unknown kind, or a sort below that of the line before; line 0 is its own.
#[tactic(auto, unfolding(crate::specs::Rules::breaks5))]
pub fn breaks_5(lines: Lines, reduced: bool, line: usize) -> bool
    requires { 4 * line + 3 < length lines.words.now }
    ensures { result ≡ breaks5 (machine_of reduced) (table_in lines.entry) line }
{
    let kind = lines.words[4 * line];
    let last = line.saturating_sub(1);
    !is_known(reduced, kind) | (sort_of(kind) < sort_of(lines.words[4 * last]))
}

// 6: the line is past the limit of its sort.
#[tactic(auto, unfolding(crate::specs::Rules::breaks6))]
pub fn breaks_6(lines: Lines, line: usize) -> bool
    requires { (4 * line + 3 < length lines.words.now) × (lines.counts.decls ≤ length lines.words.now / 4) × (lines.counts.nodes ≤ length lines.words.now / 4) }
    ensures { result ≡ breaks6 (table_in lines.entry) line }
{
    match Kind::from(lines.words[4 * line]) {
        Kind::Declaration(_) => 32 <= line,
        Kind::Node(_) => lines.counts.decls + 1024 <= line,
        Kind::Row(_) => lines.counts.decls + lines.counts.nodes + 256 <= line,
    }
}

// 7: an operand that its role does not allow.
#[tactic(auto, unfolding(crate::specs::Rules::breaks7))]
pub fn breaks_7(lines: Lines, line: usize) -> bool
    requires { 4 * line + 3 < length lines.words.now }
    ensures { result ≡ breaks7 (table_in lines.entry) line }
{
    let w = 4 * line;
    let roles = roles_of(lines.words[w]);
    let a = suits(roles.a, lines.words[w + 1]);
    let b = suits(roles.b, lines.words[w + 2]);
    let c = suits(roles.c, lines.words[w + 3]);
    !(a & (b & c))
}

// Whether the variables and nodes that a line names are there: nodes below a bound.
fn line_there(words: &[u32], line: usize, vars: usize, bound: usize) -> bool
    requires { 4 * line + 3 < length words.now }
    ensures { result ≡ all_there (roles_of (get_or words.now (4 * line) 0)) vars bound (line_at words.now line) }
{
    let w = 4 * line;
    let roles = roles_of(words[w]);
    let a = is_there(roles.a, vars, bound, words[w + 1]);
    let b = is_there(roles.b, vars, bound, words[w + 2]);
    let c = is_there(roles.c, vars, bound, words[w + 3]);
    a & (b & c)
}

// Whether the locals of a 43 are there, counted in whole numbers; of no other line there are any.
fn locals_there(kind: u32, vars: usize, a: u32, count: u32) -> bool
    ensures { result ≡ locals_there (row_kind kind) vars a count }
{
    let from = a as usize;
    let n = count as usize;
    if opens_procedure(kind) {
        return (n == 0) | (from + n <= vars);
    }
    true
}

// 8: a variable or node that is not there; a node's own operands are smaller (rule 6.13).
pub fn breaks_8(lines: Lines, line: usize) -> bool
    requires in_sorts { InSorts (table_in lines) }
    requires line_in_bounds { 4 * line + 3 < length lines.words.now }
    ensures { result ≡ breaks8 (table_in lines.entry) line }
{
    let decls = lines.counts.decls;
    let nodes = lines.counts.nodes;
    if line < decls {
        return false;
    }
    if line < decls + nodes {
        return !line_there(lines.words, line, decls, line - decls);
    }
    let w = 4 * line;
    let locals = locals_there(
        lines.words[w],
        decls,
        lines.words[w + 1],
        lines.words[w + 2],
    );
    !(line_there(lines.words, line, decls, nodes) & locals)
}
