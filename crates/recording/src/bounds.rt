// The numbers that a loop has of its own, besides those of its operands.
ghost use Rattle.std.specs.Prelude.{◌≡◌, [], ◌∷◌};
ghost use Rattle.std.specs.Prelude.{if◌then◌else◌};
ghost use Rattle.model.specs.Table.{row_at, marked_uint};
ghost use Rattle.prepared.specs.Own.{own_table};
ghost use Rattle.recording.specs.CodePushes.{pushed, push_all};

use crate::marks::marked_uint;
use crate::pushes::push;
use evaluators::nodes::wide;
use prepared::own::row_word;

// Start x and end y of the loop of a row, where its iterator is a marked uint.
pub fn record_bounds(
    own: &[u32; 5256],
    out: &mut [u32],
    row: u32,
    x: u32,
    y: u32,
    at: usize,
) -> usize
    ensures { pushed out.new result
        ≡ push_all (if marked_uint (own_table own.now) (row_at (own_table own.now) row).a then x ∷ y ∷ [] else [])
        (pushed out.old at) }
{
    let a = wide(row_word(own, row, 1));
    if marked_uint(own, a) {
        let next = push(out, at, x);
        return push(out, next, y);
    }
    at
}
