// Rows 35 and 36: assert and assume.
ghost use Rattle.std.specs.Prelude.{◌≡◌};
ghost use Rattle.std.specs.Prelude.{if◌then◌else◌};
ghost use Rattle.machine.specs.declared.End.TheVariants.{AssertFalse, AssumeFalse};
ghost use Rattle.row_kinds.specs.CodeRows.{tested_of};

use crate::operands::lost;
use evaluators::answers::Answer;
use machine::{End, Move, Worked};

// The end of a row whose bool is false.
fn false_end(assume: bool) -> End
    ensures { result ≡ (if assume then AssumeFalse else AssertFalse) }
{
    if assume {
        return End::AssumeFalse;
    }
    End::AssertFalse
}

// Row 35, or 36, with its bool worked out.
pub fn tested(assume: bool, x: Answer) -> Worked
    ensures { result ≡ tested_of assume x }
{
    let Answer::Bool(yes, at) = x else {
        return lost(x);
    };
    if yes {
        return Worked::Moves(Move::Goes, at);
    }
    Worked::Ends(false_end(assume), at)
}
