// Check 15, of the callers, whose words stand on the stack, those of the one in main first.
ghost use Rattle.std.specs.Prelude.{◌≡◌, ◌&&◌, ◌+◌, ◌≤◌, length, leb};
ghost use Rattle.model.specs.State.{most_callers};
ghost use Rattle.model.specs.Accepted.{Accepted};
ghost use Rattle.kinds.specs.Code.{InSorts};
ghost use Rattle.procedures.specs.Map.{Mapped};
ghost use Rattle.prepared.specs.View.{kind_of, table_for};
ghost use Rattle.calls.specs.Stack.{stack_words, caller_at, callers_of};
ghost use Rattle.records.specs.Record.{calls_right, callers_right};
ghost use Rattle.records.specs.CodeRecord.{call_of};

use calls::{CALLER, DEPTH};
use machine::Record;
use prepared::Frame;
use procedures::PLACES;
use records::loops::stands_right;

const CALL: u32 = 45;

// A row is a 45 that calls the procedure with the first row q (rule 7.16).
fn is_call_of(t: &[u32], f: Frame, map: &[u32; 273], row: u32, q: u32) -> bool
    requires { InSorts (table_for t.now f) × Accepted (kind_of f) (table_for t.now f) × Mapped (table_for t.now f) map.now }
    ensures { result ≡ call_of (table_for t.now f) row q }
{
    let r = row as usize;
    if f.counts.rows <= r {
        return false;
    }
    let w = 4 * (f.counts.decls + f.counts.nodes + r);
    let kind = t[w];
    if kind != CALL {
        return false;
    }
    let k = t[w + 1] as usize;
    map[k] + 1 == q
}

// The caller whose words stand from a place on calls the procedure with the first row q, and its loops are those around it (rule 7.17).
fn calls_right(t: &[u32], f: Frame, map: &[u32; 273], stack: &[u32], at: usize, q: u32) -> bool
    requires in_sorts { InSorts (table_for t.now f) × Accepted (kind_of f) (table_for t.now f) × Mapped (table_for t.now f) map.now }
    requires stack_len { (length stack.now ≡ stack_words) × (at + 30 ≤ 240) }
    ensures { result ≡ calls_right (table_for t.now f) q (caller_at (table_for t.now f) stack.now at) }
{
    let row = stack[at];
    if !is_call_of(t, f, map, row, q) {
        return false;
    }
    let open = stack[at + 1];
    stands_right(
        t,
        f.counts,
        row,
        open,
        &stack[at + 6..at + 14],
        &stack[at + 14..at + 22],
        &stack[at + 22..at + 30],
    )
}

// At most eight callers (rule 7.15): the last calls what is at work, with the first row `at_work`, each other one what the next stands in, and
// the first stands in main, as the run does where there is none (rule 7.16).
pub(crate) fn callers_right(
    t: &[u32],
    f: Frame,
    map: &[u32; 273],
    stack: &[u32],
    at_work: u32,
) -> bool
    requires in_sorts { InSorts (table_for t.now f) × Accepted (kind_of f) (table_for t.now f) × Mapped (table_for t.now f) map.now }
    requires stack_len { length stack.now ≡ stack_words }
    ensures { result ≡ (leb (length (callers_of (table_for t.now f) stack.now)) most_callers
        && callers_right (table_for t.now f) at_work (callers_of (table_for t.now f) stack.now)) }
{
    let depth = stack[DEPTH];
    if Record::CALLERS < depth {
        return false;
    }
    let mut q = at_work;
    for n in (0..depth as usize).rev() {
        let at = CALLER * n;
        if !calls_right(t, f, map, stack, at, q) {
            return false;
        }
        q = map[PLACES + stack[at] as usize];
    }
    q == 0
}
