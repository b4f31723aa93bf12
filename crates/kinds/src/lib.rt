// What each kind of line asks of it, and what the checks count and look up. All of it is for our crates above.
#![tactic(auto)]

ghost use Rattle.std.specs.Prelude.{◌≡◌, ◌+◌, ◌*◌, ◌^◌, ◌<◌, ◌≤◌, length};
ghost use Rattle.std.specs.Prelude.{if◌then◌else◌};
ghost use Rattle.model.specs.Table.{marked, row_at};
ghost use Rattle.kinds.specs.Kinds.{nest_said};
ghost use Rattle.kinds.specs.Code.{table_in, open_after};

use lists::word_or_zero;

mod asks; // asks.rt: roles of operands, types, marks and nesting, by the kind
mod line_kind; // line_kind.rt: the kinds, from a line's first word

pub use asks::{
    Nest, Role, Roles, Sort, is_known, is_there, is_typed, nest_of, opens_procedure, result_type,
    roles_of, sort_of, suits, suits_mark,
};
pub use line_kind::{BOOL, Kind, Node, POINTER, Row, Ty, UINT};

// How many declarations, nodes and rows a table has.
#[derive(Clone, Copy)]
pub struct Counts {
    pub decls: usize,
    pub nodes: usize,
    pub rows: usize,
}

// A table as the checks read it: its words, and how many lines of each sort they have.
#[derive(Clone, Copy)]
pub struct Lines<'a> {
    pub words: &'a [u32],
    pub counts: Counts,
}

impl Lines<'_> {
    // The kind of a row.
    pub fn kind_of_row(self, row: usize) -> u32
        requires { (4 * (self.counts.decls + self.counts.nodes + self.counts.rows) ≤ length self.words.now) × (row < self.counts.rows) }
        ensures { result ≡ (row_at (table_in self.entry) row).kind }
    {
        self.words[4 * (self.counts.decls + self.counts.nodes + row)]
    }
}

// The first row of what the row after this one belongs to.
pub fn home_after(opens: bool, row: usize, home: usize) -> usize
    requires { (row < 256) × (home ≤ row) }
    ensures { (result ≡ (if opens then row + 1 else home)) × (result ≤ row + 1) }
{
    if opens { row + 1 } else { home }
}

// The open loops after a row, from those before it, of which there are no more than rows.
pub fn open_after(nest: Nest, count: usize) -> usize
    requires { count < 2 ^ 62 }
    ensures { (result ≡ open_after (nest_said nest) count) × (result ≤ count + 1) }
{
    match nest {
        Nest::Opens => count + 1,
        Nest::Closes => count.saturating_sub(1),
        Nest::Neither => count,
    }
}

// Whether a variable is declared with the kind and is marked. The kind is a word of a table: a `Ty` would leave out numbers that may be asked for.
#[tactic(auto, unfolding(model::specs::Table::marked))]
pub fn is_marked(words: &[u32], kind: u32, x: u32) -> bool
    ensures { result ≡ marked words.now kind x }
{
    let i = x as usize;
    let declared = word_or_zero(words, 4 * i);
    let mark = word_or_zero(words, 4 * i + 1);
    (declared == kind) & (mark == 1)
}
