// Check 16: no loop has the iterator of a loop that is open around it in its procedure.
ghost use Rattle.std.specs.Prelude.{◌≡◌, ◌/◌, ◌≤◌, length};
ghost use Rattle.lists.specs.First.{first};
ghost use Rattle.model.specs.Table.{row_at};
ghost use Rattle.kinds.specs.Code.{table_in, InSorts};
ghost use Rattle.loop_checks.specs.Rules.{any, opened_with, breaks16};
ghost use Rattle.loop_checks.specs.Code.{kept_rows, WellNested};

use kinds::{Lines, Nest, home_after, nest_of, open_after, opens_procedure};
use lists::word_or_zero;

// Operand a of a row: of one that opens a loop, the iterator.
fn iterator_of(lines: Lines, row: u32) -> u32
    requires { (lines.counts.decls ≤ 32) × (lines.counts.nodes ≤ 1024) }
    ensures { result ≡ (row_at (table_in lines.entry) row).a }
{
    let line = lines.counts.decls + lines.counts.nodes + row as usize;
    word_or_zero(lines.words, 4 * line + 1)
}

// Whether one of the open loops, whose rows are given, was opened at row `since` or later and has this iterator; the innermost is looked at first.
fn opened_with(lines: Lines, opened: &[u32], since: u32, iterator: u32) -> bool
    requires { (lines.counts.decls ≤ 32) × (lines.counts.nodes ≤ 1024) }
    ensures { result ≡ any (opened_with (table_in lines.entry) since iterator) (kept_rows opened.now (length opened.now)) }
{
    for k in (0..opened.len()).rev() {
        let row = opened[k];
        if (since <= row) & (iterator_of(lines, row) == iterator) {
            return true;
        }
    }
    false
}

// 16: the first row that breaks it, the rows of the open loops kept on the way. Loops count that were opened since the first row of what the
// row belongs to: main's is row 0, and each 43 begins anew.
pub fn first_shared(lines: Lines) -> Option<usize>
    requires { InSorts (table_in lines) × WellNested (table_in lines) }
    ensures { result ≡ first (breaks16 (table_in lines.entry)) 0 (length lines.entry.words.now / 4) }
{
    let rows_from = lines.counts.decls + lines.counts.nodes;
    let mut opened = [0u32; 8];
    let mut count: usize = 0;
    let mut since: usize = 0;
    for row in 0..lines.counts.rows {
        let line = rows_from + row;
        let kind = lines.kind_of_row(row);
        let nest = nest_of(kind);
        if let Nest::Opens = nest {
            let at = row as u32;
            let iterator = iterator_of(lines, at);
            if opened_with(lines, &opened[..count], since as u32, iterator) {
                return Some(line);
            }
            opened[count] = at;
        }
        count = open_after(nest, count);
        since = home_after(opens_procedure(kind), row, since);
    }
    None
}
