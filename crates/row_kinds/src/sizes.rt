// The cells of an array.
ghost use Rattle.std.specs.Prelude.{◌≡◌};
ghost use Rattle.prepared.specs.Own.{places_of};
ghost use Rattle.row_kinds.specs.CodeRows.{size_for};

use prepared::places::class_in;

// How many cells an array of a length has.
pub fn size_for(own: &[u32; 5256], len: u32, reduced: bool) -> u32
    ensures { result ≡ size_for (places_of own.now) len reduced }
{
    if reduced {
        return class_in(own, len);
    }
    len
}
