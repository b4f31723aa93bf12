// Check 17 row by row, with what was met before each: every row is looked at by the text, in its order.
ghost use Rattle.std.specs.Prelude.{◌≡◌, not, ◌&&◌, ◌+◌, ◌*◌, ◌/◌, ◌<◌, ◌≤◌, length, get_or, ltb};
ghost use Rattle.lists.specs.First.{first};
ghost use Rattle.model.specs.Table.{marked};
ghost use Rattle.model.specs.Procedures.{opened_before, allowed, keeps_procedures};
ghost use Rattle.kinds.specs.Code.{table_in, InSorts, There, LocalsFit};
ghost use Rattle.procedures.specs.Misplaced.{breaks17};
ghost use Rattle.procedures.specs.Code.{uses_said, locals_free, opens_by, rule_by, Owners, Summaries, MetBefore, met_after};

use crate::uses::{Uses, line_uses};
use kinds::{Lines, Row, home_after, is_marked, nest_of, open_after, opens_procedure};
use lists::word_or_zero;

const UINT: u32 = 2;

const MOST_PROCEDURES: usize = 16;

const MOST_LOCALS: u32 = 4;

// What was met before a row: the first row of what it belongs to, how many procedures opened, and how many loops are open.
#[derive(Clone, Copy)]
pub(crate) struct Met {
    pub(crate) home: usize,
    pub(crate) opened: usize,
    pub(crate) loops: usize,
}

// What was met before the row after this one.
fn met_after(met: Met, kind: u32, row: usize) -> Met
    requires { (row < 256) × (met.home ≤ row) × (met.opened ≤ row) × (met.loops ≤ row) }
    ensures { (result ≡ met_after met kind row) × (result.home ≤ row + 1) × (result.opened ≤ row + 1) × (result.loops ≤ row + 1) }
{
    let opens = opens_procedure(kind);
    let home = home_after(opens, row, met.home);
    let opened = met.opened + usize::from(opens);
    let loops = open_after(nest_of(kind), met.loops);
    Met {
        home,
        opened,
        loops,
    }
}

// How many rows 43 there are, past sixteen too.
fn count_procedures(lines: Lines) -> usize
    requires { (length lines.words.now ≡ 4 * (lines.counts.decls + lines.counts.nodes + lines.counts.rows)) × (lines.counts.rows ≤ 256) }
    ensures { result ≡ opened_before (table_in lines.entry) lines.entry.counts.rows }
{
    let mut opened: usize = 0;
    for row in 0..lines.counts.rows {
        opened += usize::from(opens_procedure(lines.kind_of_row(row)));
    }
    opened
}

// Whether what a row uses are globals, or locals of the procedure with this first row.
fn is_own(used: Uses, home: usize) -> bool
    ensures { result ≡ allowed home (uses_said used) }
{
    match used {
        Uses::Globals => true,
        Uses::LocalsOfOne(first) => first as usize == home,
        Uses::LocalsOfTwo => false,
    }
}

// Whether no local of a 43 is marked or an earlier 43's.
fn locals_free(words: &[u32], owners: &[u32], a: u32, count: u32, first: u32) -> bool
    requires { a + count ≤ 32 }
    ensures { result ≡ locals_free words.now owners.now a count first }
{
    for i in 0..count {
        let v = a + i;
        if is_marked(words, UINT, v) | (owner_of(owners, v) != first) {
            return false;
        }
    }
    true
}

fn owner_of(owners: &[u32], v: u32) -> u32
    ensures { result ≡ get_or owners.now v 0 }
{
    let i = v as usize;
    word_or_zero(owners, i)
}

// 43: not one too many, no loop open around it, one to four locals, all of them free.
fn opens_rightly(words: &[u32], owners: &[u32], met: Met, row: usize, a: u32, count: u32) -> bool
    requires { (row < 256) × ((count ≡ 0 → ⊥) → a + count ≤ 32) }
    ensures { result ≡ opens_by words.now owners.now met row a count }
{
    if (met.opened < MOST_PROCEDURES)
        & ((met.loops == 0) & ((1 <= count) & (count <= MOST_LOCALS)))
    {
        return locals_free(words, owners, a, count, row as u32 + 1);
    }
    false
}

// 45: a procedure that there is, and a variable that is not marked.
fn calls_rightly(words: &[u32], total: usize, a: u32, c: u32) -> bool
    ensures { result ≡ (ltb a total && not (marked words.now 2 c)) }
{
    let k = a as usize;
    (k < total) & !is_marked(words, UINT, c)
}

// What 17 asks of a row by its kind.
#[tactic(auto, unfolding(crate::specs::Code::rule_by))]
fn rule_kept(words: &[u32], owners: &[u32], met: Met, total: usize, row: usize, line: usize) -> bool
    requires { (4 * line + 3 < length words.now) × (row < 256) × LocalsFit words.now line }
    ensures { result ≡ rule_by words.now owners.now met total row line }
{
    let w = 4 * line;
    match Row::from(words[w]) {
        Row::Procedure => opens_rightly(words, owners, met, row, words[w + 1], words[w + 2]),
        Row::Return => met.home != 0,
        Row::Call => calls_rightly(words, total, words[w + 1], words[w + 3]),
        _ => true,
    }
}

// 17, of a row: it uses a local that is not its own, or its kind's rule is broken.
fn row_misplaced(
    lines: Lines,
    owners: &[u32],
    uses: &[Uses],
    met: Met,
    total: usize,
    row: usize,
) -> bool
    requires in_sorts { InSorts (table_in lines) × There (table_in lines) }
    requires owners { Owners (table_in lines) owners.now × Summaries (table_in lines) uses.now lines.counts.nodes }
    requires row_lt_rows { (row < lines.counts.rows) × MetBefore (table_in lines) met row }
    requires total_value { total ≡ opened_before (table_in lines) lines.counts.rows }
    ensures { result ≡ not (keeps_procedures (table_in lines.entry) row) }
{
    let line = lines.counts.decls + lines.counts.nodes + row;
    let used = line_uses(lines.words, owners, uses, line);
    let kept = rule_kept(lines.words, owners, met, total, row, line);
    !(is_own(used, met.home) & kept)
}

// 17: the first row that breaks it.
pub(crate) fn first_row(lines: Lines, owners: &[u32], uses: &[Uses]) -> Option<usize>
    requires in_sorts { InSorts (table_in lines) × There (table_in lines) }
    requires owners { Owners (table_in lines) owners.now × Summaries (table_in lines) uses.now lines.counts.nodes }
    ensures { result ≡ first (breaks17 (table_in lines.entry)) 0 (length lines.entry.words.now / 4) }
{
    let total = count_procedures(lines);
    let rows_from = lines.counts.decls + lines.counts.nodes;
    let mut met = Met {
        home: 0,
        opened: 0,
        loops: 0,
    };
    for row in 0..lines.counts.rows {
        if row_misplaced(lines, owners, uses, met, total, row) {
            return Some(rows_from + row);
        }
        met = met_after(met, lines.kind_of_row(row), row);
    }
    None
}
