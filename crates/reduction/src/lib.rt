// The check of the places, and the reduction of a table into a lent table.
#![tactic(auto)]

mod words;

ghost use Rattle.std.specs.Prelude.{◌≡◌, length};
ghost use Rattle.model.specs.Class.{pair};
ghost use Rattle.table.specs.Verdict.{verdict_of};
ghost use Rattle.reduction.specs.Reduction.{places_check, reduce_answer, reduce_buffer};

use table::{Check, Refusal, check_table};
use words::reduce_words;

// 13: the first place of a pair is below the second.
pub fn check_pair(c1: u32, c2: u32) -> Result<(), Refusal>
    ensures { verdict_of result ≡ places_check (pair c1 c2) }
{
    if c1 < c2 {
        return Ok(());
    }
    Err(Refusal::of_whole(Check::Pair))
}

// The reduction of a plain table that passes, into a lent table as long as it; the table's checks, 13 and 14 in that order, and a refusal leaves
// the lent table as it was.
pub fn reduce_table(words: &[u32], c1: u32, c2: u32, lent: &mut [u32]) -> Result<(), Refusal>
    ensures answer { verdict_of result ≡ reduce_answer words.now (pair c1 c2) (length lent.old) }
    ensures buffer { lent.new ≡ reduce_buffer words.now (pair c1 c2) lent.old }
{
    check_table(words, false)?;
    check_pair(c1, c2)?;
    if lent.len() != words.len() {
        return Err(Refusal::of_whole(Check::BufferSize));
    }
    reduce_words(words, lent);
    Ok(())
}
