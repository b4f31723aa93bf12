// Runs from a record on.
ghost use Rattle.std.specs.Prelude.{◌≡◌};
ghost use Rattle.kinds.specs.Kinds.{machine_of};
ghost use Rattle.model.specs.Class.{pair};
ghost use Rattle.model.specs.State.{places_in};
ghost use Rattle.machine.specs.View.{state_of};
ghost use Rattle.runs.specs.Checks.{frame_of};
ghost use Rattle.runs.specs.Answers.{said_of, continued_said};

use crate::Ran;
use crate::checks::{check_run, frame_of};
use crate::steps::run_from;
use machine::Record;
use record_check::record_fits;
use table::{Check, Refusal};

// A run of either machine from a record on: 15 is checked after the others.
pub fn continued_run(
    r: Record,
    t: &[u32],
    cells: &mut [u32],
    list: &[u32],
    classes: bool,
    c1: u32,
    c2: u32,
    limit: u32,
) -> Result<Ran, Refusal>
    ensures { said_of t.now (frame_of t.now classes c1 c2) list.now result cells.new ≡ continued_said
        (machine_of classes) (places_in (machine_of classes) (pair c1 c2)) t.now (state_of t.now (frame_of t.now classes c1 c2) r cells.old) list.now limit }
{
    check_run(t, cells, classes, c1, c2)?;
    let f = frame_of(t, classes, c1, c2);
    if record_fits(t, cells, f, r) {
        return Ok(run_from(r, t, cells, list, f, limit));
    }
    Err(Refusal::of_whole(Check::Record))
}
