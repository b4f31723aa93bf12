// What the test programs share: the parts of the lines that they print, and check numbers of words and of bytes.
#![tactic(auto)]

ghost use Rattle.std.specs.Prelude.{◌≡◌, ℕ, map};
ghost use Rattle.testing.specs.Checks.{mixed_with, check_number};

use evaluators::answers::reason_number;
use machine::End;
use std::io::Write;

// Output

// Prints bytes. What is not written is missed in the output, so a test program goes on.
pub fn print<W: Write>(to: &mut W, bytes: &[u8]) {
    let _ = to.write_all(bytes);
}

// Prints a name and a number.
pub fn print_part<W: Write>(to: &mut W, name: &[u8], n: u64) {
    print(to, name);
    let _ = write!(to, "{n}");
}

// Prints a refusal (rule 8.2), by its number, which may be any, and its place, but not the end of its line.
pub fn print_refusal<W: Write>(to: &mut W, number: u32, place: u64) {
    print_part(to, b"refused ", u64::from(number));
    print_part(to, b" line ", place);
}

// Prints a refusal's number and place, or that there is none.
pub fn print_verdict<W: Write>(to: &mut W, checked: Result<(), (u32, u64)>) {
    match checked {
        Err((number, place)) => print_refusal(to, number, place),
        Ok(()) => print(to, b"passes"),
    }
}

// Prints the name of an end (rule 8.4), a failure with its reason (rule 8.17); the choice writer has one more, `full`.
pub fn print_end<W: Write>(to: &mut W, e: End) {
    match e {
        End::Done => print(to, b"done"),
        End::AssertFalse => print(to, b"assert"),
        End::AssumeFalse => print(to, b"assume"),
        End::Fail(reason) => print_part(to, b"fail reason ", u64::from(reason_number(reason))),
        End::WantOfCells => print(to, b"room"),
        End::OutOfSteps => print(to, b"steps"),
        End::ChoiceNotAllowed => print(to, b"badchoice"),
        End::NoChoiceLeft => print(to, b"nochoice"),
        End::ListFull => print(to, b"full"),
        End::TooDeep => print(to, b"deep"),
    }
}

// Check numbers

// The check number with one word more: h * 31 + w, modulo 2^32.
pub fn mixed(h: u32, w: u32) -> u32
    ensures { result ≡ mixed_with h w }
{
    h.wrapping_mul(31).wrapping_add(w)
}

// The check number of words or of bytes, from 0 on.
pub fn check_of<T: Copy + Into<u32>>(s: &[T]) -> u32
    ensures { (word : T → ℕ) → ((x : T) (w : ℕ) → T.converts x w → w ≡ word x) → result ≡ check_number (map word s.now) }
{
    let mut h = 0;
    for x in s {
        h = mixed(h, (*x).into());
    }
    h
}

// ... of words.
pub fn check_of_words(s: &[u32]) -> u32
    ensures { result ≡ check_number s.now }
{
    check_of::<u32>(s)
}

// ... of bytes.
pub fn check_of_bytes(s: &[u8]) -> u32
    ensures { result ≡ check_number s.now }
{
    check_of::<u8>(s)
}
