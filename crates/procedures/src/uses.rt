// Whose locals a line uses, and those of each node, filled in rising order.
ghost use Rattle.std.specs.Prelude.{◌≡◌, ◌+◌, ◌*◌, ◌<◌, length};
ghost use Rattle.model.specs.Procedures.{together};
ghost use Rattle.kinds.specs.Kinds.{role_said};
ghost use Rattle.kinds.specs.Code.{table_in, InSorts, There};
ghost use Rattle.procedures.specs.Code.{uses_said, kept_uses, operand_by, line_by, Owners, Summaries};

use kinds::{Lines, Role, roles_of};
use lists::word_or_zero;

// Whose locals are used: nobody's, those of one procedure, named by its first row, or those of two.
#[derive(Clone, Copy, PartialEq, Eq)]
pub(crate) enum Uses {
    Globals,
    LocalsOfOne(u32),
    LocalsOfTwo,
}

// What two operands use together.
fn together(x: Uses, y: Uses) -> Uses
    ensures { uses_said result ≡ together (uses_said x) (uses_said y) }
{
    match (x, y) {
        (Uses::Globals, _) => y,
        (_, Uses::Globals) => x,
        (Uses::LocalsOfOne(p), Uses::LocalsOfOne(q)) if p == q => x,
        _ => Uses::LocalsOfTwo,
    }
}

// What the buffer has for a node, globals past its end.
fn kept_uses(uses: &[Uses], x: u32) -> Uses
    ensures { uses_said result ≡ kept_uses uses.now x }
{
    let i = x as usize;
    if i < uses.len() {
        uses[i]
    } else {
        Uses::Globals
    }
}

// What an operand uses, by its role.
fn operand_uses(owners: &[u32], uses: &[Uses], role: Role, x: u32) -> Uses
    ensures { uses_said result ≡ operand_by owners.now uses.now (role_said role) x }
{
    match role {
        Role::Variable => match word_or_zero(owners, x as usize) {
            0 => Uses::Globals,
            first => Uses::LocalsOfOne(first),
        },
        Role::Node => kept_uses(uses, x),
        Role::Unused | Role::Flag | Role::Number => Uses::Globals,
    }
}

// What a line uses, all its operands together.
pub(crate) fn line_uses(words: &[u32], owners: &[u32], uses: &[Uses], line: usize) -> Uses
    requires { 4 * line + 3 < length words.now }
    ensures { uses_said result ≡ line_by words.now owners.now uses.now line }
{
    let w = 4 * line;
    let roles = roles_of(words[w]);
    let a = operand_uses(owners, uses, roles.a, words[w + 1]);
    let b = operand_uses(owners, uses, roles.b, words[w + 2]);
    let c = operand_uses(owners, uses, roles.c, words[w + 3]);
    together(a, together(b, c))
}

// What each node uses.
pub(crate) fn fill_uses(lines: Lines, owners: &[u32], uses: &mut [Uses])
    requires in_sorts { InSorts (table_in lines) × There (table_in lines) }
    requires owners { Owners (table_in lines) owners.now × (length uses.old ≡ 1024) }
    ensures { Summaries (table_in lines.entry) uses.new lines.entry.counts.nodes }
{
    for n in 0..lines.counts.nodes {
        uses[n] = line_uses(lines.words, owners, uses, lines.counts.decls + n);
    }
}
