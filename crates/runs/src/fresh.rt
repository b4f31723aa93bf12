// Fresh runs.
ghost use Rattle.std.specs.Prelude.{◌≡◌};
ghost use Rattle.kinds.specs.Kinds.{machine_of};
ghost use Rattle.model.specs.Table.{table_of};
ghost use Rattle.model.specs.Class.{pair};
ghost use Rattle.model.specs.State.{fresh, places_in};
ghost use Rattle.model.specs.Step.{run};
ghost use Rattle.prepared.specs.View.{places, kind_of};
ghost use Rattle.runs.specs.CodeSteps.{Reports, Lends};
ghost use Rattle.runs.specs.Checks.{frame_of};
ghost use Rattle.runs.specs.Answers.{said_of, fresh_said};

use crate::Ran;
use crate::checks::{check_run, frame_of};
use crate::steps::run_from;
use machine::Record;
use machine::steps::zero_all;
use prepared::Frame;
use table::Refusal;

// A fresh run of a table that passes, in cells of the stated size.
fn start(t: &[u32], cells: &mut [u32], list: &[u32], f: Frame, limit: u32) -> Ran
    requires { Lends t.now f cells.old }
    ensures { Reports t.now f list.now result cells.new (run (places f) (table_of t.now) limit 0 (fresh
        (places f) (kind_of f) (table_of t.now)) list.now) }
{
    zero_all(cells);
    let r = Record::fresh(t, f);
    run_from(r, t, cells, list, f, limit)
}

// A fresh run of either machine.
pub fn fresh_run(
    t: &[u32],
    cells: &mut [u32],
    list: &[u32],
    classes: bool,
    c1: u32,
    c2: u32,
    limit: u32,
) -> Result<Ran, Refusal>
    ensures { said_of t.now (frame_of t.now classes c1 c2) list.now result cells.new ≡ fresh_said
        (machine_of classes) (places_in (machine_of classes) (pair c1 c2)) t.now cells.old list.now limit }
{
    check_run(t, cells, classes, c1, c2)?;
    let f = frame_of(t, classes, c1, c2);
    Ok(start(t, cells, list, f, limit))
}
