// Rows 44 and 45: what a return and a call come to, with their number worked out.
ghost use Rattle.std.specs.Prelude.{◌≡◌};
ghost use Rattle.row_kinds.specs.CodeRows.{called_of, returned_of};

use crate::operands::lost;
use evaluators::answers::Answer;
use machine::{End, Move, Record, Worked};

// Row 45, with so many callers.
pub fn called(depth: u32, k: u32, argument: Answer) -> Worked
    ensures { result ≡ called_of depth k argument }
{
    let Answer::Uint(v, at) = argument else {
        return lost(argument);
    };
    if Record::CALLERS <= depth {
        return Worked::Ends(End::TooDeep, at);
    }
    Worked::Moves(Move::Calls(k, v), at)
}

// Row 44.
pub fn returned(x: Answer) -> Worked
    ensures { result ≡ returned_of x }
{
    let Answer::Uint(v, at) = x else {
        return lost(x);
    };
    Worked::Moves(Move::Returns(v), at)
}
