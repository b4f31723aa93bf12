// Which arrays the reduced run holds reduced.
ghost use Rattle.std.specs.Prelude.{◌≡◌};
ghost use Rattle.choices.specs.CodeSteps.{flag_of, held_with};

use kinds::is_marked;
use machine::Machine;
use prepared::own::row_word;

// 1 if the variable of a row is a marked pointer, else 0.
fn flag_of(own: &[u32; 5256], row: u32) -> u8
    ensures { result ≡ flag_of own.now row }
{
    let a = row_word(own, row, 1);
    u8::from(is_marked(own, 3, a))
}

// Keeps the flag of the array that a row makes, if it makes one, at the place of the next array, if there is one.
pub fn hold(own: &[u32; 5256], held: &mut [u8; 16], count: u32, row: u32)
    ensures { held.new ≡ held_with own.now count row held.old }
{
    if count < Machine::ARRAYS {
        let i = count as usize;
        held[i] = flag_of(own, row);
    }
}
