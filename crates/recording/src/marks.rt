// What decides whether the reduced run takes a choice: the mark of a variable, how an array is held, and whether a place is tracked.
ghost use Rattle.std.specs.Prelude.{◌≡◌, ◌<◌, ◌≤◌, ◌^◌};
ghost use Rattle.model.specs.Class.{tracked};
ghost use Rattle.model.specs.Table.{marked};
ghost use Rattle.model.specs.Writer.{held_reduced};
ghost use Rattle.recording.specs.CodeRecords.{held_of, pair_of};

use lists::word_or_zero;

// Whether variable a is a marked uint.
pub fn marked_uint(own: &[u32; 5256], a: usize) -> bool
    requires { a < 2 ^ 32 }
    ensures { result ≡ marked own.now 2 a }
{
    let kind = word_or_zero(own, 4 * a);
    let mark = word_or_zero(own, 4 * a + 1);
    (kind == 2) & (mark == 1)
}

// Whether the reduced run holds a pointer's array reduced, by the column that says it of each of `count` arrays.
pub fn is_held(held: &[u8; 16], count: u32, to: u32) -> bool
    requires { count ≤ 16 }
    ensures { result ≡ held_reduced (held_of count held.now) to }
{
    let Some(i) = to.checked_sub(1) else {
        return false;
    };
    i < count && held[i as usize] == 1
}

// Whether the reduced run tracks a place.
pub fn is_place(own: &[u32; 5256], v: u32) -> bool
    ensures { result ≡ tracked (pair_of own.now) v }
{
    own[129] == v || own[130] == v
}
