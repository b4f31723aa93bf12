// Check 15, of the arrays: at most 16, in sequence, within the cells, and none reduced in a plain record.
ghost use Rattle.std.specs.Prelude.{◌≡◌, List};
ghost use Rattle.model.specs.State.{Value, Caller};
ghost use Rattle.prepared.specs.View.{kind_of, places};
ghost use Rattle.row_kinds.specs.CodeRows.{size_for};
ghost use Rattle.machine.specs.View.{state_by};
ghost use Rattle.records.specs.Record.{arrays_fit};
ghost use Rattle.records.specs.CodeRecord.{array_fits};

use machine::Machine;
use model::class_of;
use prepared::Frame;

// An array starts where the one before ends, and is of a kind that the machine has (rules 7.9, 7.11).
fn array_fits(f: Frame, start: u32, from: usize, reduced: bool) -> bool
    ensures { result ≡ array_fits f start from reduced }
{
    (start as usize == from) & (f.classes | !reduced)
}

// How many cells an array of a length has.
fn size_for(f: Frame, len: u32, reduced: bool) -> u32
    ensures { result ≡ size_for (places f) len reduced }
{
    if !reduced {
        len
    } else if f.classes {
        class_of(f.c1, f.c2, len)
    } else {
        0
    }
}

// The arrays are as they must be (rules 7.8 to 7.11).
pub fn arrays_fit(cells: &[u32], f: Frame, m: Machine) -> bool
    ensures { (vs : List Value) (callers : List Caller) → result ≡ arrays_fit (kind_of f) (places f) (state_by vs callers m cells.now) }
{
    if Machine::ARRAYS < m.count {
        return false;
    }
    let n = m.count as usize;
    let mut from: usize = 0;
    for i in 0..n {
        let reduced = m.shapes[i] == 1;
        if !array_fits(f, m.firsts[i], from, reduced) {
            return false;
        }
        from += size_for(f, m.lengths[i], reduced) as usize;
    }
    from <= cells.len()
}
