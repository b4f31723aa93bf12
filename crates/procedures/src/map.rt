// The words of the map of procedures: no procedure yet, and one more.
ghost use Rattle.std.specs.Prelude.{◌≡◌, ◌<◌, ◌≤◌, length};
ghost use Rattle.procedures.specs.Map.{map_size};
ghost use Rattle.procedures.specs.Code.{Cleared, noted};

use crate::PLACES;

// No procedure opens anywhere: each place has the row count.
pub(crate) fn clear_openings(map: &mut [u32], rows: usize)
    requires { (length map.old ≡ map_size) × (rows ≤ 256) }
    ensures { Cleared map.new rows }
{
    map[..PLACES].fill(rows as u32);
}

// Where a row opens a procedure, it is kept if it is one of the first sixteen.
pub(crate) fn note_opening(map: &mut [u32], opens: bool, opened: usize, row: usize)
    requires { (length map.old ≡ map_size) × (row < 256) }
    ensures { map.new ≡ noted map.old opens opened row }
{
    if opens {
        if opened < PLACES {
            map[opened] = row as u32;
        }
    }
}
