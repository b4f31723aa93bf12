// An operand that gave no value of the type that its row takes.
ghost use Rattle.std.specs.Prelude.{◌≡◌};
ghost use Rattle.row_kinds.specs.CodeRows.{lost_of};

use evaluators::answers::{Answer, Failure};
use machine::Worked;

// The row's failing end where an operand gave no value of the type that the row takes.
pub fn lost(x: Answer) -> Worked
    ensures { result ≡ lost_of x }
{
    match x {
        Answer::Not(why, at) => Worked::Not(why, at),
        _ => Worked::Not(Failure::Stuck, 0),
    }
}
