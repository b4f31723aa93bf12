// The checks 4 to 12, 16 and 17 of a table, plain or reduced: the first refusal by number and line.
#![tactic(auto)]

ghost use Rattle.std.specs.Prelude.{◌≡◌};
ghost use Rattle.kinds.specs.Kinds.{machine_of};
ghost use Rattle.table.specs.Verdict.{verdict_of};
ghost use Rattle.table.specs.Checks.{table_check};

use crate::checks::{check_lines, check_senses};
use crate::sorts::counts_of;
pub use crate::verdict::{Check, Refusal};
use kinds::Lines;

pub mod sorts; // sorts.rt: how many lines each sort has
mod checks; // checks.rt: the checks in their order
mod verdict; // verdict.rt: what a check answers

// The first refusal of the words as a plain or a reduced table: 4 at place 0, or 5 to 12, 16 or 17 at a line.
pub fn check_table(words: &[u32], reduced: bool) -> Result<(), Refusal>
    ensures { verdict_of result ≡ table_check (machine_of reduced) words.now }
{
    if words.len() % 4 != 0 {
        return Err(Refusal::of_whole(Check::WholeLines));
    }
    let counts = counts_of(words);
    let lines = Lines { words, counts };
    check_lines(lines, reduced)?;
    check_senses(lines, reduced)
}
