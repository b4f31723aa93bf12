// The lines of the two runs of a table that passes, with a pair that passes.
ghost use Rattle.std.specs.Prelude.{◌≡◌, ◌≤◌, [], length};
ghost use Rattle.table.specs.Verdict.Verdict.{Passes};
ghost use Rattle.table.specs.Checks.{table_check};
ghost use Rattle.model.specs.State.MachineKind.{plain};
ghost use Rattle.model.specs.Reduce.{reduce};
ghost use Rattle.model.specs.Demand3.{plain_run, reduced_run};
ghost use Rattle.reduction.specs.Reduction.{places_check};
ghost use Rattle.model.specs.Class.{pair};
ghost use Rattle.pair.specs.Pairs.{line_from, line_of, line_said};

use crate::Line;
use machine::Machine;
use reduction::reduce_table;
use runs::{Ran, run_plain, run_reduced};

// The words of the longest table.
pub(crate) const TABLE_WORDS: usize = 5248;

// The line of a run.
fn line_of(ran: Ran) -> Line
    ensures { result ≡ line_from ran }
{
    Line {
        end: ran.end,
        row: ran.record.machine.row,
        steps: ran.steps,
        used: ran.used,
    }
}

// The plain run, which is not refused.
pub(crate) fn plain_line(t: &[u32], limit: u32) -> Line
    requires { table_check plain t.now ≡ Passes }
    ensures { line_of result ≡ line_said [] (plain_run t.now limit) }
{
    let mut cells = [0u32; Machine::PLAIN_CELLS];
    let ran = run_plain(t, &mut cells, limit).unwrap();
    line_of(ran)
}

// The run of the reduction, which is made in a lent table as long as the table. Neither the reduction nor its run is refused.
fn reduced_line(t: &[u32], c1: u32, c2: u32, lent: &mut [u32], list: &[u32], limit: u32) -> Line
    requires { (table_check plain t.now ≡ Passes) × (places_check (pair c1 c2) ≡ Passes) × (length lent.old ≡ length t.now) }
    ensures { line_of result ≡ line_said list.now (reduced_run (pair c1 c2) (reduce t.now) limit list.now) }
{
    reduce_table(t, c1, c2, lent).unwrap();
    let mut cells = [0u32; Machine::REDUCED_CELLS];
    let ran = run_reduced(lent, c1, c2, &mut cells, list, limit).unwrap();
    line_of(ran)
}

// The reduced run under a list of choices.
pub(crate) fn pair_line(t: &[u32], c1: u32, c2: u32, list: &[u32], limit: u32) -> Line
    requires { (table_check plain t.now ≡ Passes) × (places_check (pair c1 c2) ≡ Passes) × (length t.now ≤ 5248) }
    ensures { line_of result ≡ line_said list.now (reduced_run (pair c1 c2) (reduce t.now) limit list.now) }
{
    let mut lent = [0u32; TABLE_WORDS];
    let n = t.len();
    reduced_line(t, c1, c2, &mut lent[..n], list, limit)
}
