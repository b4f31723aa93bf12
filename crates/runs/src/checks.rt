// What every run checks of what it is lent: the table, the places, the size of the cells. And the frame of a table.
ghost use Rattle.std.specs.Prelude.{◌≡◌, length};
ghost use Rattle.table.specs.Verdict.{verdict_of};
ghost use Rattle.table.specs.Checks.{size_check};
ghost use Rattle.kinds.specs.Kinds.{machine_of};
ghost use Rattle.model.specs.Class.{pair};
ghost use Rattle.model.specs.State.{cell_count, places_in};
ghost use Rattle.runs.specs.Checks.{frame_of, places_for, run_checks};

use machine::Machine;
use prepared::Frame;
use reduction::check_pair;
use table::sorts::counts_of;
use table::{Check, Refusal, check_table};

// The frame of a table, for the machine with these places.
pub fn frame_of(t: &[u32], classes: bool, c1: u32, c2: u32) -> Frame
    ensures { result ≡ frame_of t.now classes c1 c2 }
{
    let counts = counts_of(t);
    Frame {
        c1,
        c2,
        classes,
        counts,
    }
}

// 13, of the reduced machine.
fn places_for(classes: bool, c1: u32, c2: u32) -> Result<(), Refusal>
    ensures { verdict_of result ≡ places_for (machine_of classes) (places_in (machine_of classes) (pair c1 c2)) }
{
    if classes {
        return check_pair(c1, c2);
    }
    Ok(())
}

// How many cells a machine has.
fn cells_of(classes: bool) -> usize
    ensures { result ≡ cell_count (machine_of classes) }
{
    if classes {
        return Machine::REDUCED_CELLS;
    }
    Machine::PLAIN_CELLS
}

// 14, of so many cells.
pub fn check_size(size: usize, stated: usize) -> Result<(), Refusal>
    ensures { verdict_of result ≡ size_check size stated }
{
    if size == stated {
        return Ok(());
    }
    Err(Refusal::of_whole(Check::BufferSize))
}

// The table's checks, 13 and 14, in that order.
pub fn check_run(t: &[u32], cells: &[u32], classes: bool, c1: u32, c2: u32) -> Result<(), Refusal>
    ensures { verdict_of result ≡ run_checks (machine_of classes) (places_in (machine_of classes) (pair c1 c2)) t.now (length cells.now) }
{
    check_table(t, classes)?;
    places_for(classes, c1, c2)?;
    check_size(cells.len(), cells_of(classes))
}
