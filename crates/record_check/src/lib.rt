// Check 15: whether a table can have a record, from which a run is to go on.
#![tactic(auto)]

mod callers; // callers.rt: the callers

ghost use Rattle.std.specs.Prelude.{◌≡◌};
ghost use Rattle.model.specs.Accepted.{Accepted};
ghost use Rattle.kinds.specs.Code.{InSorts};
ghost use Rattle.prepared.specs.View.{kind_of, places, table_for};
ghost use Rattle.machine.specs.View.{state_of};
ghost use Rattle.records.specs.Record.{record_fits};

use callers::callers_right;
use machine::Record;
use prepared::Frame;
use procedures::{PLACES, map_procedures};
use records::arrays::arrays_fit;
use records::loops::stands_right;
use records::variables::{locals_idle, variables_fit};

// The table can have the record. For our crates above, which see to what is required here.
pub fn record_fits(t: &[u32], cells: &[u32], f: Frame, r: Record) -> bool
    requires { InSorts (table_for t.now f) × Accepted (kind_of f) (table_for t.now f) }
    ensures { result ≡ record_fits (kind_of f) (places f) (table_for t.now f) (state_of t.now f r cells.now) }
{
    let m = r.machine;
    let stack = r.stack;
    if !stands_right(t, f.counts, m.row, m.open, &m.loop_rows, &m.starts, &m.ends) {
        return false;
    }
    let mut map = [0u32; 273];
    map_procedures(t, f.counts, &mut map);
    let at_work = map[PLACES + m.row as usize];
    callers_right(t, f, &map, &stack[..], at_work)
        && variables_fit(t, f, m)
        && locals_idle(t, f, m, at_work)
        && arrays_fit(cells, f, m)
}
