// What the bench program prints, put into a lent buffer byte by byte. It is not put by `write!`: of what that wrote a proof knows only where it
// answers Ok, and nothing says that it does. Nor are the digits those of the kit's `itoa`: our crates stand on one another and on std alone.
#![tactic(auto)]

ghost use Rattle.std.specs.Prelude.{◌≡◌, ◌++◌, ◌<◌, ◌≤◌, length, drop};
ghost use Rattle.machine.specs.View.{end_of};
ghost use Rattle.pair.specs.Pairs.{line_of, said_of};
ghost use Rattle.pair.specs.Pairs.PairSaid.{refusal, lines};
ghost use Rattle.table.specs.Verdict.{check_number};
ghost use Rattle.text.specs.CodePuts.{Puts};
ghost use Rattle.text.specs.Text.{digit, decimal, end_text, run_text, pair_text, printed};

use evaluators::answers::reason_number;
use machine::End;
use pair::{Line, Paired, pair_run};
use recording::pushes::push;
use table::Refusal;

// Puts the bytes of a word.
fn put_word(out: &mut [u8], at: usize, word: &[u8]) -> usize
    ensures { Puts word.now out.old at out.new result }
{
    let mut next = at;
    for b in word {
        next = push(out, next, *b);
    }
    next
}

// The character of a digit.
fn digit_of(d: u64) -> u8
    requires { d < 10 }
    ensures { result ≡ digit d }
{
    48 + d as u8
}

// Puts a number in decimal.
fn put_number(out: &mut [u8], at: usize, n: u64) -> usize
    ensures { Puts (decimal n) out.old at out.new result }
{
    if n < 10 {
        return push(out, at, digit_of(n));
    }
    let next = put_number(out, at, n / 10);
    push(out, next, digit_of(n % 10))
}

// Puts a part of a line: its name and a number, which has at most 20 digits.
fn put_part(out: &mut [u8], at: usize, name: &[u8], n: u64) -> usize
    ensures puts { Puts (name.now ++ decimal n) out.old at out.new result }
    ensures n_len_bound { length (decimal n) ≤ 20 }
{
    let next = put_word(out, at, name);
    put_number(out, next, n)
}

// Puts an end: its word, and the reason of a failure.
fn put_end(out: &mut [u8], at: usize, e: End) -> usize
    ensures { Puts (end_text (end_of e)) out.old at out.new result }
{
    match e {
        End::Done => put_word(out, at, b"done"),
        End::AssertFalse => put_word(out, at, b"assert"),
        End::AssumeFalse => put_word(out, at, b"assume"),
        End::Fail(reason) => put_part(out, at, b"fail reason ", u64::from(reason_number(reason))),
        End::WantOfCells => put_word(out, at, b"room"),
        End::OutOfSteps => put_word(out, at, b"steps"),
        End::ChoiceNotAllowed => put_word(out, at, b"badchoice"),
        End::NoChoiceLeft => put_word(out, at, b"nochoice"),
        End::ListFull => put_word(out, at, b"full"),
        End::TooDeep => put_word(out, at, b"deep"),
    }
}

// Puts a run after its name: its end, where it stands and its steps.
fn put_run(out: &mut [u8], at: usize, line: Line) -> usize
    ensures puts { Puts (run_text (line_of line)) out.old at out.new result }
    ensures line_len_bound { length (run_text (line_of line)) ≤ 65 }
{
    let e = line.end;
    let a = put_end(out, at, e);
    let b = put_part(out, a, b" row ", u64::from(line.row));
    put_part(out, b, b" steps ", u64::from(line.steps))
}

// Puts a refusal.
fn put_refusal(out: &mut [u8], r: Refusal) -> usize
    ensures puts { Puts (pair_text (refusal (check_number r.check) r.place)) out.old 0 out.new result }
    ensures len_bound { length (pair_text (refusal (check_number r.check) r.place)) ≤ 256 }
{
    let a = put_part(out, 0, b"refused ", u64::from(r.check.number()));
    let b = put_part(out, a, b" line ", r.place as u64);
    put_word(out, b, b"\n")
}

// Puts the two runs.
fn put_runs(out: &mut [u8], plain: Line, pair: Line) -> usize
    ensures puts { Puts (pair_text (lines (line_of plain) (line_of pair))) out.old 0 out.new result }
    ensures pair_len_bound { length (pair_text (lines (line_of plain) (line_of pair))) ≤ 256 }
{
    let a = put_word(out, 0, b"plain ");
    let b = put_run(out, a, plain);
    let c = put_word(out, b, b"\npair ");
    let d = put_run(out, c, pair);
    let e = put_part(out, d, b" choices ", pair.used);
    put_word(out, e, b"\n")
}

// Puts an answer.
fn put_paired(out: &mut [u8], answer: Result<Paired, Refusal>) -> usize
    ensures puts { Puts (pair_text (said_of answer)) out.old 0 out.new result }
    ensures len_bound { length (pair_text (said_of answer)) ≤ 256 }
{
    match answer {
        Ok(both) => put_runs(out, both.plain, both.pair),
        Err(r) => put_refusal(out, r),
    }
}

// The text for an input: fills the front of the buffer and answers how many bytes it has; the rest of the buffer is kept.
pub fn pair_text(input: &[u8], out: &mut [u8; 256]) -> usize
    ensures value { (result ≡ length (printed input.now)) × (out.new ≡ printed input.now ++ drop result out.old) }
    ensures upper_bound { result ≤ length out.new }
{
    put_paired(out, pair_run(input))
}
