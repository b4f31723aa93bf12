// What working out a node gives, and the answers that need no column: sums, tests and choices.
ghost use Rattle.std.specs.Prelude.{◌≡◌, true, drop, eqb};
ghost use Rattle.std.specs.Prelude.{if◌then◌else◌};
ghost use Rattle.model.specs.Class.{class};
ghost use Rattle.model.specs.Table.Ty.{bool, uint, pointer};
ghost use Rattle.model.specs.Work.{reason_number, give, choose};
ghost use Rattle.model.specs.Eval.{next_start};
ghost use Rattle.prepared.specs.Own.{places_of};
ghost use Rattle.evaluators.specs.Reasons.{reason_of};
ghost use Rattle.evaluators.specs.CodeAnswers.{Answers, Says};
ghost use Rattle.evaluators.specs.CodeLeaves.{arith, moved_by, test_of};

use crate::nodes::Test;
pub use machine::{Failure, Reason};
use prepared::places::class_in;
use reader::take_choice;

// The number of a reason.
pub fn reason_number(reason: Reason) -> u32
    ensures { result ≡ reason_number (reason_of reason) }
{
    match reason {
        Reason::SumTooLarge => 1,
        Reason::BelowZero => 2,
        Reason::WithoutArray => 3,
        Reason::PastLength => 4,
        Reason::CounterTooLarge => 5,
    }
}

// A value and the place of the next choice, or why there is none. An evaluator's value is of its own type, so that its user hands any other
// answer on as it is.
#[derive(Clone, Copy)]
pub enum Answer {
    Bool(bool, usize),
    Uint(u32, usize),
    Pointer(u32, u32, usize),
    Not(Failure, usize),
}

// v + w, or v - w.
pub fn computed(minus: bool, v: u32, w: u32, at: usize) -> Answer
    ensures { Says uint at result (arith minus v w) }
{
    if minus {
        return match v.checked_sub(w) {
            Some(z) => Answer::Uint(z, at),
            None => Answer::Not(Failure::Fails(Reason::BelowZero), at),
        };
    }
    match v.checked_add(w) {
        Some(z) => Answer::Uint(z, at),
        None => Answer::Not(Failure::Fails(Reason::SumTooLarge), at),
    }
}

// One more than the start of a loop, for its next round.
pub fn next_start(v: u32, at: usize) -> Answer
    ensures { Says uint at result (next_start v) }
{
    match v.checked_add(1) {
        Some(next) => Answer::Uint(next, at),
        None => Answer::Not(Failure::Fails(Reason::CounterTooLarge), at),
    }
}

// A pointer to place v of an array, moved by w.
pub fn shifted(minus: bool, to: u32, v: u32, w: u32, at: usize) -> Answer
    ensures { Says pointer at result (moved_by minus to v w) }
{
    let x = computed(minus, v, w, at);
    let Answer::Uint(z, next) = x else {
        return x;
    };
    Answer::Pointer(to, z, next)
}

// 22, 23 or 24.
pub fn compared(test: Test, v: u32, w: u32, at: usize) -> Answer
    ensures { Says bool at result (give (test_of test v w)) }
{
    match test {
        Test::Less => Answer::Bool(v < w, at),
        Test::AtMost => Answer::Bool(v <= w, at),
        Test::Equal => Answer::Bool(v == w, at),
    }
}

// The node of the branch that 25 takes.
pub fn branch_of(yes: bool, b: usize, c: usize) -> usize
    ensures { result ≡ (if yes then b else c) }
{
    if yes { b } else { c }
}

// A choice of any number.
pub fn any_choice(list: &[u32], at: usize) -> Answer
    ensures { Answers uint list.now result (choose (λ v. true) (drop at list.now)) }
{
    let x = take_choice(list, at);
    let Some((v, next)) = x else {
        return Answer::Not(Failure::NoChoice, at);
    };
    Answer::Uint(v, next)
}

// A choice in the class k.
pub fn choice_in(own: &[u32; 5256], list: &[u32], k: u32, at: usize) -> Answer
    ensures { Answers uint list.now result (choose (λ v. eqb (class (places_of own.now) v) k) (drop at list.now)) }
{
    let x = take_choice(list, at);
    let Some((v, next)) = x else {
        return Answer::Not(Failure::NoChoice, at);
    };
    if class_in(own, v) == k {
        return Answer::Uint(v, next);
    }
    Answer::Not(Failure::BadChoice, at)
}
