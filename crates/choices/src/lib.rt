// The choice writer: it runs a plain table fresh and writes, for a pair of places, the choices under which the run of the reduced table
// ends the same way, unless the plain run ends for want of cells or the list is full.
#![tactic(auto)]

mod marks;
mod steps;

ghost use Rattle.std.specs.Prelude.{◌≡◌, false, length};
ghost use Rattle.model.specs.Class.{pair};
ghost use Rattle.runs.specs.Checks.{frame_of};
ghost use Rattle.table.specs.Verdict.{verdict_of};
ghost use Rattle.choices.specs.Checks.{writer_checks};
ghost use Rattle.choices.specs.Answers.{said_of, writer_said};

use machine::steps::zero_all;
use machine::{Machine, Record};
use reduction::check_pair;
use runs::Ran;
use runs::checks::{check_size, frame_of};
use steps::write_steps;
use table::{Refusal, check_table};

// The table's checks, 13 and 14, in that order.
fn check_writer(t: &[u32], cells: &[u32], c1: u32, c2: u32) -> Result<(), Refusal>
    ensures { verdict_of result ≡ writer_checks (pair c1 c2) t.now (length cells.now) }
{
    check_table(t, false)?;
    check_pair(c1, c2)?;
    check_size(cells.len(), Machine::PLAIN_CELLS)
}

// The choices of a fresh run of the plain table, with a limit of steps, into a lent list.
pub fn write_choices(
    t: &[u32],
    c1: u32,
    c2: u32,
    cells: &mut [u32],
    list: &mut [u32],
    limit: u32,
) -> Result<Ran, Refusal>
    ensures { said_of t.now (frame_of t.now false c1 c2) result cells.new list.new
        ≡ writer_said (pair c1 c2) t.now cells.old list.old limit }
{
    check_writer(t, cells, c1, c2)?;
    zero_all(cells);
    let f = frame_of(t, false, c1, c2);
    let r = Record::fresh(t, f);
    Ok(write_steps(r.machine, r.stack, t, cells, list, f, limit))
}
