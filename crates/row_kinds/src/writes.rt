// Rows 34 and 40, both operands worked out: the cell of the place, then the write. Neither takes a choice of its own.
ghost use Rattle.std.specs.Prelude.{◌≡◌};
ghost use Rattle.row_kinds.specs.CodeRows.{cell_gets, tracked_gets, place_gets, target_gets};

use crate::sizes::size_for;
use evaluators::answers::{Failure, Reason};
use evaluators::arrays::Target;
use machine::{Move, Worked};
use prepared::places::{class_in, is_tracked};

// Cell i of an array of so many cells, laid from start on, gets v: it must be one of so many lent.
fn cell_gets(room: usize, start: u32, size: u32, i: u32, v: u32, at: usize) -> Worked
    ensures { result ≡ cell_gets room start size i v at }
{
    if size <= i {
        return Worked::Not(Failure::Stuck, at);
    }
    let p = start as usize + i as usize;
    if p < room {
        return Worked::Moves(Move::Writes(p, v), at);
    }
    Worked::Not(Failure::Stuck, at)
}

// Place p of a reduced array, which is below the length, gets v, by 40: a write to an untracked place is dropped (rule 3.18).
fn tracked_gets(
    own: &[u32; 5256],
    room: usize,
    start: u32,
    len: u32,
    p: u32,
    v: u32,
    at: usize,
) -> Worked
    ensures { result ≡ tracked_gets own.now room start len p v at }
{
    if is_tracked(own, p) {
        return cell_gets(room, start, class_in(own, len), class_in(own, p), v, at);
    }
    Worked::Moves(Move::Goes, at)
}

// Place p of an array gets v, by 40 where tracking says so, else by 34: either fails past the true length (rules 2.19, 3.17).
fn place_gets(
    tracking: bool,
    own: &[u32; 5256],
    room: usize,
    start: u32,
    len: u32,
    reduced: bool,
    p: u32,
    v: u32,
    at: usize,
) -> Worked
    ensures { result ≡ place_gets tracking own.now room start len reduced p v at }
{
    if len <= p {
        return Worked::Not(Failure::Fails(Reason::PastLength), at);
    }
    if tracking & reduced {
        return tracked_gets(own, room, start, len, p, v, at);
    }
    cell_gets(room, start, size_for(own, len, reduced), p, v, at)
}

// ... of the array that a pointer points to.
pub fn target_gets(
    tracking: bool,
    own: &[u32; 5256],
    room: usize,
    x: Target,
    p: u32,
    v: u32,
    at: usize,
) -> Worked
    ensures { result ≡ target_gets tracking own.now room x p v at }
{
    match x {
        Target::Array(start, len, reduced) => place_gets(
            tracking, own, room, start, len, reduced, p, v, at,
        ),
        Target::Missing => Worked::Not(Failure::Fails(Reason::WithoutArray), at),
        Target::Unknown => Worked::Not(Failure::Stuck, at),
    }
}
