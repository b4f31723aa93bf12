// The answer of a check: nothing, or the refusal, whose check has a number from 1 to 17 (rule 6.1).
ghost use Rattle.std.specs.Prelude.{◌≡◌, ℕ, Bool, ◌<◌};
ghost use Rattle.lists.specs.First.{first};
ghost use Rattle.table.specs.Verdict.{check_number, refused_as, verdict_of};
ghost use Rattle.table.specs.Verdict.Verdict.{Passes, Refused};
ghost use Rattle.table.specs.Checks.{refused_at_line};

use lists::first_where;

// What refuses, in the order of the numbers (rules 6.5 to 6.20).
#[derive(Clone, Copy, PartialEq, Eq)]
pub enum Check {
    FileLength = 1,
    BlockSum,
    BlockLayout,
    WholeLines,
    Kinds,
    Limits,
    UnusedOperands,
    NamedOperands,
    Types,
    Depths,
    Nesting,
    Marks,
    Pair,
    BufferSize,
    Record,
    Iterators,
    Procedures,
}

impl Check {
    // The number of a check.
    pub fn number(self) -> u32
        ensures { result ≡ check_number self }
    {
        self as u32
    }

    // The check over a whole input, whose first broken place is known.
    pub fn broken_at(self, first: Option<usize>) -> Result<(), Refusal>
        ensures { verdict_of result ≡ refused_at_line first (check_number self) Passes }
    {
        match first {
            Some(place) => Err(Refusal { check: self, place }),
            None => Ok(()),
        }
    }

    // The check over so many lines, each of which may break it. For our crates above: all that is required is that the closure may be called for
    // each number below `lines`.
    pub fn over_lines<F: Fn(usize) -> bool>(self, lines: usize, breaks: F) -> Result<(), Refusal>
        requires { (i : ℕ) → i < lines → F.pre breaks i }
        ensures { (test : ℕ → Bool) → ((i : ℕ) (b : Bool) → i < lines → F.post breaks i b → b ≡ test i)
            → verdict_of result ≡ refused_at_line (first test 0 lines) (check_number self) Passes }
    {
        self.broken_at(first_where(lines, breaks))
    }
}

// A refusal: the check, and the place where it is broken.
#[derive(Clone, Copy, PartialEq, Eq)]
pub struct Refusal {
    pub check: Check,
    pub place: usize,
}

impl Refusal {
    // A refusal of the whole input has the place 0 (rule 6.3).
    pub fn of_whole(check: Check) -> Refusal
        ensures { refused_as result ≡ Refused (check_number check) 0 }
    {
        Refusal { check, place: 0 }
    }
}
