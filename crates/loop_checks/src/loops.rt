// Loops: the row that closes one, and check 11.
ghost use Rattle.std.specs.Prelude.{◌≡◌, ◌+◌, ◌*◌, ◌/◌, ◌<◌, ◌≤◌, length, leb};
ghost use Rattle.lists.specs.First.{first};
ghost use Rattle.model.specs.Table.{matching_end};
ghost use Rattle.kinds.specs.Kinds.{nest_said};
ghost use Rattle.kinds.specs.Code.{table_by, table_in, InSorts};
ghost use Rattle.loop_checks.specs.Rules.{breaks11};
ghost use Rattle.loop_checks.specs.Code.{ends_scan, unnested};

use kinds::{Counts, Lines, Nest, nest_of, open_after};

const MOST: usize = 8;

// Whether a row that nests so closes the loop that is looked at, with so many loops open inside it.
fn ends_scan(nest: Nest, inner: usize) -> bool
    ensures { result ≡ ends_scan (nest_said nest) inner }
{
    match nest {
        Nest::Closes => inner == 0,
        Nest::Opens | Nest::Neither => false,
    }
}

// The row that closes the loop of a row, or the row count. For the crates above, once the checks have passed: it asks for as many lines as
// the counts say, and for a row among them. A labelled loop that yields the row is a form that this project asks for.
pub fn matching_end(words: &[u32], counts: Counts, row: usize) -> usize
    requires { (4 * (counts.decls + counts.nodes + counts.rows) ≤ length words.now) × (row < counts.rows) }
    ensures { result ≡ matching_end (table_by words.now counts) row }
{
    let mut inner: usize = 0;
    let mut i = row + 1;
    let end = 'scan: loop {
        if counts.rows <= i {
            break 'scan counts.rows;
        }
        let line = counts.decls + counts.nodes + i;
        let nest = nest_of(words[4 * line]);
        if ends_scan(nest, inner) {
            break 'scan i;
        }
        inner = open_after(nest, inner);
        i += 1;
    };
    end
}

// Whether a row breaks 11, with so many loops open before it: an end with none, a loop inside eight or never closed.
fn row_breaks(lines: Lines, nest: Nest, count: usize, row: usize) -> bool
    requires { (length lines.words.now ≡ 4 * (lines.counts.decls + lines.counts.nodes + lines.counts.rows)) × (row < lines.counts.rows) }
    ensures { result ≡ unnested (nest_said nest) count (leb lines.entry.counts.rows (matching_end (table_in lines.entry) row)) }
{
    match nest {
        Nest::Opens => (lines.counts.rows <= matching_end(lines.words, lines.counts, row))
            | (MOST <= count),
        Nest::Closes => count == 0,
        Nest::Neither => false,
    }
}

// 11: the first row that breaks it, the open loops counted on the way.
pub fn first_unnested(lines: Lines) -> Option<usize>
    requires { InSorts (table_in lines) }
    ensures { result ≡ first (breaks11 (table_in lines.entry)) 0 (length lines.entry.words.now / 4) }
{
    let mut count: usize = 0;
    for row in 0..lines.counts.rows {
        let line = lines.counts.decls + lines.counts.nodes + row;
        let nest = nest_of(lines.kind_of_row(row));
        if row_breaks(lines, nest, count, row) {
            return Some(line);
        }
        count = open_after(nest, count);
    }
    None
}
