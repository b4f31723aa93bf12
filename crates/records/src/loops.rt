// Check 15, of where the run or a caller stands: a row, and its open loops, outermost first, with a column each for their rows, starts and ends.
ghost use Rattle.std.specs.Prelude.{◌≡◌, List, ℕ, ◌≤◌, ◌<◌, ◌^◌};
ghost use Rattle.model.specs.Table.{open_at};
ghost use Rattle.model.specs.State.{position};
ghost use Rattle.kinds.specs.Kinds.{nest_said};
ghost use Rattle.kinds.specs.Code.{table_by, InSorts};
ghost use Rattle.calls.specs.Stack.{loops_of};
ghost use Rattle.records.specs.Record.{same_numbers, starts_within, stands_right};
ghost use Rattle.records.specs.CodeRecord.{rows_of, Walks, met_by};

use kinds::{Counts, Nest, nest_of};
use lists::word_or_zero;

// A walk back from a row: so many loops were closed and are yet to be opened, and so many of the record's are yet to be met. None where the
// record's next loop is another.
type Walk = Option<(usize, usize)>;

// Row i opens a loop around the row: the record's next one must be at i.
fn met(rows: &[u32], left: usize, i: usize) -> Walk
    ensures { result ≡ met_by rows.now left i }
{
    let last = left.checked_sub(1)?;
    let row = word_or_zero(rows, last) as usize;
    (row == i).then_some((0, last))
}

// Row i passed on the way back, by how it nests.
fn passed(rows: &[u32], nest: Nest, closed: usize, left: usize, i: usize) -> Walk
    requires { closed < 2 ^ 62 }
    ensures { Walks rows.now (nest_said nest) closed left i result }
{
    match nest {
        Nest::Opens if closed == 0 => met(rows, left, i),
        Nest::Opens => Some((closed - 1, left)),
        Nest::Closes => Some((closed + 1, left)),
        Nest::Neither => Some((closed, left)),
    }
}

// The open loops are those around the row (rule 7.3).
fn loops_around(t: &[u32], counts: Counts, row: u32, open: u32, rows: &[u32]) -> bool
    requires { (counts.decls ≤ 32) × (counts.nodes ≤ 1024) × (row ≤ 256) }
    ensures { result ≡ same_numbers (rows_of «open» rows.now) (open_at (table_by t.now counts) row) }
{
    let mut closed: usize = 0;
    let mut left = open as usize;
    for i in (0..row as usize).rev() {
        let nest = nest_of(word_or_zero(t, 4 * (counts.decls + counts.nodes + i)));
        let Some(next) = passed(rows, nest, closed, left, i) else {
            return false;
        };
        (closed, left) = next;
    }
    left == 0
}

// No start is above its end (rule 7.4).
fn starts_within<'a>(open: u32, starts: &'a [u32], ends: &'a [u32]) -> bool
    ensures { (rows : List ℕ) → result ≡ starts_within (loops_of «open» rows starts.now ends.now) }
{
    for n in (0..open as usize).rev() {
        if word_or_zero(ends, n) < word_or_zero(starts, n) {
            return false;
        }
    }
    true
}

// The row is one of the table's or the one past the last (rule 7.2), and its loops are as they must be. For a caller too (rule 7.17).
pub fn stands_right<'a>(
    t: &[u32],
    counts: Counts,
    row: u32,
    open: u32,
    rows: &'a [u32],
    starts: &'a [u32],
    ends: &'a [u32],
) -> bool
    requires { InSorts (table_by t.now counts) }
    ensures { result ≡ stands_right (table_by t.now counts)
        (position row (loops_of «open» rows.now starts.now ends.now)) }
{
    row as usize <= counts.rows
        && loops_around(t, counts, row, open, rows)
        && starts_within(open, starts, ends)
}
