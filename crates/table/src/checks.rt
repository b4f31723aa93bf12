// The checks in their order, each over all lines: the first line that breaks it refuses.
ghost use Rattle.std.specs.Prelude.{◌≡◌, [], ◌∷◌, ◌+◌, ◌*◌, ◌/◌, ◌%◌, ◌<◌, ◌≤◌, length};
ghost use Rattle.kinds.specs.Code.{table_in, InSorts, There};
ghost use Rattle.table.specs.Verdict.{verdict_of};
ghost use Rattle.table.specs.Checks.{first_refusal};
ghost use Rattle.line_checks.specs.Code.{Types};
ghost use Rattle.table.specs.Code.{counts_of, first_of};

use crate::verdict::{Check, Refusal};
use kinds::Lines;
use line_checks::depths::first_deep;
use line_checks::marks::breaks_12;
use line_checks::operands::{breaks_5, breaks_6, breaks_7, breaks_8};
use line_checks::types::{breaks_9, fill_types};
use loop_checks::iterators::first_shared;
use loop_checks::loops::first_unnested;
use procedures::first_misplaced;

// Checks 5 to 8, for the counts of the words.
pub(crate) fn check_lines(lines: Lines, reduced: bool) -> Result<(), Refusal>
    requires words_len { (length lines.words.now % 4 ≡ 0) × (lines.counts ≡ counts_of lines.words.now) }
    requires decls_in_bounds { (lines.counts.decls ≤ length lines.words.now / 4) × (lines.counts.nodes ≤ length lines.words.now / 4) }
    ensures { verdict_of result ≡ first_refusal (λ k. first_of k reduced lines.entry.words.now lines.entry.counts) (5 ∷ 6 ∷ 7 ∷ 8 ∷ []) }
{
    let count = lines.words.len() / 4;
    Check::Kinds.over_lines(count, |i| breaks_5(lines, reduced, i))?;
    Check::Limits.over_lines(count, |i| breaks_6(lines, i))?;
    Check::UnusedOperands.over_lines(count, |i| breaks_7(lines, i))?;
    Check::NamedOperands.over_lines(count, |i| breaks_8(lines, i))
}

// Checks 9 to 12, 16 and 17, with the types at hand.
fn check_with(lines: Lines, reduced: bool, types: &[u32]) -> Result<(), Refusal>
    requires in_sorts { InSorts (table_in lines) × There (table_in lines) }
    requires types { Types (table_in lines) types.now lines.counts.nodes }
    ensures { verdict_of result ≡ first_refusal (λ k. first_of k reduced lines.entry.words.now lines.entry.counts) (9 ∷ 10 ∷ 11 ∷ 12 ∷ 16 ∷ 17 ∷ []) }
{
    let count = lines.words.len() / 4;
    Check::Types.over_lines(count, |i| breaks_9(lines, types, i))?;
    Check::Depths.broken_at(first_deep(lines))?;
    Check::Nesting.broken_at(first_unnested(lines))?;
    Check::Marks.over_lines(count, |i| breaks_12(lines, reduced, i))?;
    Check::Iterators.broken_at(first_shared(lines))?;
    Check::Procedures.broken_at(first_misplaced(lines))
}

// Checks 9 to 12, 16 and 17, of a table that passes 4 to 8.
pub(crate) fn check_senses(lines: Lines, reduced: bool) -> Result<(), Refusal>
    requires { InSorts (table_in lines) × There (table_in lines) }
    ensures { verdict_of result ≡ first_refusal (λ k. first_of k reduced lines.entry.words.now lines.entry.counts) (9 ∷ 10 ∷ 11 ∷ 12 ∷ 16 ∷ 17 ∷ []) }
{
    let mut types = [0u32; 1024];
    fill_types(lines, &mut types);
    check_with(lines, reduced, &types)
}
