// Messages between a program and the one that started it, each after its length in bytes; words as bytes; and the answer of a run or of the
// choice writer as words.
#![tactic(auto)]

ghost use Rattle.std.specs.Prelude.{◌≡◌, ◌<◌, ◌≤◌, length, IfSome};
ghost use Rattle.wire.specs.Messages.{word_or_zero, words_of, byte_at, bytes_of};
ghost use Rattle.wire.specs.Heads.{end_number, reason_in, ran_head, refused_as, refused_head, head_of};

use evaluators::answers::reason_number;
use file::word::word_at;
use lists::word_or_zero;
use machine::End;
use runs::Ran;
use std::io::{self, Read, Write};
use table::Refusal;

// The words that are sent at once.
const CHUNK: usize = 1024;

// Messages

// A word as a size.
pub fn size(n: u32) -> usize
    ensures { (result ≡ n) × (result < 4294967296) }
{
    n as usize
}

// The word that the four bytes from a place on spell, the lowest first, or 0 where they are not all there.
pub fn word(s: &[u8], at: usize) -> u32
    ensures { result ≡ word_or_zero s.now at }
{
    if at < s.len().saturating_sub(3) {
        return word_at(s, at);
    }
    0
}

// Puts the words that bytes spell into as many lent words, 0 where the bytes end.
pub fn put_words(words: &mut [u32], s: &[u8])
    ensures { words.new ≡ words_of s.now (length words.old) }
{
    for (i, w) in words.iter_mut().enumerate() {
        *w = word(s, i * 4);
    }
}

// Reads the length of the next message and then the message, into the front of a lent buffer: its length in bytes, if there was one that fits.
pub fn next_message<R: Read>(from: &mut R, room: &mut [u8]) -> Option<usize>
    ensures { IfSome result (λ n. n ≤ length room.new) }
{
    let mut length = [0u8; 4];
    from.read_exact(&mut length).ok()?;
    let n = u32::from_le_bytes(length) as usize;
    from.read_exact(room.get_mut(..n)?).ok()?;
    Some(n)
}

// Words as bytes

// Byte i of words, 0 past their end.
fn byte_at(words: &[u32], i: usize) -> u8
    ensures { result ≡ byte_at words.now i }
{
    word_or_zero(words, i / 4).to_le_bytes()[i % 4]
}

// Puts the bytes of words into lent bytes, 0 where the words end.
pub fn put_bytes(out: &mut [u8], words: &[u32])
    ensures { out.new ≡ bytes_of words.now (length out.old) }
{
    for (i, b) in out.iter_mut().enumerate() {
        *b = byte_at(words, i);
    }
}

// Writes words as bytes, by way of a buffer of 4,096.
pub fn send_words<W: Write>(to: &mut W, words: &[u32]) -> io::Result<()> {
    let mut space = [0u8; 4096];
    for part in words.chunks(CHUNK) {
        let bytes = &mut space[..4 * part.len()];
        put_bytes(bytes, part);
        to.write_all(bytes)?;
    }
    Ok(())
}

// Heads

// The number of an end.
pub fn end_number(e: End) -> u32
    ensures { result ≡ end_number e }
{
    match e {
        End::Done => 0,
        End::AssertFalse => 1,
        End::AssumeFalse => 2,
        End::Fail(_) => 3,
        End::WantOfCells => 4,
        End::OutOfSteps => 5,
        End::ChoiceNotAllowed => 6,
        End::NoChoiceLeft => 7,
        End::ListFull => 8,
        End::TooDeep => 9,
    }
}

// The number of a failure's reason; 0 of any other end.
fn reason_in(e: End) -> u32
    ensures { result ≡ reason_in e }
{
    match e {
        End::Fail(reason) => reason_number(reason),
        _ => 0,
    }
}

// What a run that was not refused came to.
fn ran_head(r: Ran) -> [u32; 8]
    ensures { result ≡ ran_head r }
{
    [
        0,
        0,
        end_number(r.end),
        reason_in(r.end),
        r.steps,
        (r.used % 4294967296) as u32,
        (r.used / 4294967296) as u32,
        r.record.machine.row,
    ]
}

// A refusal by its number, which may be any, and its place.
#[derive(Clone, Copy, PartialEq, Eq)]
pub struct Refused {
    pub number: u32,
    pub place: usize,
}

// A refusal that a check gave has the check's number.
impl From<Refusal> for Refused {
    ghost from_gives = { λ r refused. refused ≡ refused_as r };

    fn from(r: Refusal) -> Refused {
        Refused {
            number: r.check.number(),
            place: r.place,
        }
    }
}

// The head of a refusal: its number and its place.
pub fn refused_head<R: Into<Refused>>(r: R) -> [u32; 8]
    ensures { (said : R → Refused) → ((x : R) (refused : Refused) → R.converts x refused → refused ≡ said x)
        → result ≡ refused_head (said r) }
{
    let refused: Refused = r.into();
    [
        refused.number,
        (refused.place % 4294967296) as u32,
        0,
        0,
        0,
        0,
        0,
        0,
    ]
}

// What a run or the choice writer answered: a refusal's number and place, or 0; then the end, the reason of a failure, the steps, the choices
// used, low and high, and the row, each 0 after a refusal.
pub fn head_of<R: Into<Refused>>(answer: Result<Ran, R>) -> [u32; 8]
    ensures { (said : R → Refused) → ((x : R) (refused : Refused) → R.converts x refused → refused ≡ said x)
        → result ≡ head_of said answer }
{
    match answer {
        Ok(ran) => ran_head(ran),
        Err(r) => refused_head(r),
    }
}

#[cfg(test)]
mod tests {
    use super::*;
    use table::Check;

    // A refusal by its number and place.
    fn head_by(answer: Result<Ran, Refused>) -> [u32; 8]
        ensures { result ≡ head_of (λ r. r) answer }
    {
        head_of(answer)
    }

    // A refusal that a check gave.
    fn checked_head(answer: Result<Ran, Refusal>) -> [u32; 8]
        ensures { result ≡ head_of refused_as answer }
    {
        head_of(answer)
    }

    #[test]
    fn refusals(rt: HostRuntime) {
        let most = Refused {
            number: 4294967295,
            place: 4294967303,
        };
        assert_eq!(rt; head_by(Err(most)), [4294967295, 7, 0, 0, 0, 0, 0, 0]);
        let last = Refusal {
            check: Check::Procedures,
            place: 5,
        };
        assert_eq!(rt; checked_head(Err(last)), [17, 5, 0, 0, 0, 0, 0, 0]);
    }
}
