// A record as 380 words, and back: row, open, count, numbers, bases, loop rows, starts, ends, firsts, lengths, shapes, stack.
use lists::word_or_zero;
use machine::{Machine, Record};

// Words of a record.
pub(crate) const WORDS: usize = 380;

// Where the columns and the stack start.
const NUMBERS: usize = 3;

const BASES: usize = 35;

const LOOP_ROWS: usize = 67;

const STARTS: usize = 75;

const ENDS: usize = 83;

const FIRSTS: usize = 91;

const LENGTHS: usize = 107;

const SHAPES: usize = 123;

const CALLERS: usize = 139;

// From words

// The first N words, 0 where they end.
fn words_of<const N: usize>(w: &[u32]) -> [u32; N] {
    std::array::from_fn(|i| word_or_zero(w, i))
}

// A word as a byte; one above 255 is taken as 255.
fn byte_of(w: u32) -> u8 {
    u8::try_from(w).unwrap_or(u8::MAX)
}

fn shapes_of(w: &[u32]) -> [u8; 16] {
    words_of::<16>(w).map(byte_of)
}

// The words of a list from a place on; none past its end.
pub(crate) fn from(w: &[u32], at: usize) -> &[u32] {
    w.get(at..).unwrap_or(&[])
}

// The record that words spell, 0 where they end.
pub(crate) fn record_of(w: &[u32]) -> Record {
    let machine = Machine {
        row: word_or_zero(w, 0),
        numbers: words_of(from(w, NUMBERS)),
        bases: words_of(from(w, BASES)),
        open: word_or_zero(w, 1),
        loop_rows: words_of(from(w, LOOP_ROWS)),
        starts: words_of(from(w, STARTS)),
        ends: words_of(from(w, ENDS)),
        count: word_or_zero(w, 2),
        firsts: words_of(from(w, FIRSTS)),
        lengths: words_of(from(w, LENGTHS)),
        shapes: shapes_of(from(w, SHAPES)),
    };
    let stack = words_of(from(w, CALLERS));
    Record { machine, stack }
}

// To words

// Puts words into a lent list from a place on, as far as it reaches.
pub(crate) fn put_at(out: &mut [u32], at: usize, words: &[u32]) {
    for (place, word) in out.iter_mut().skip(at).zip(words) {
        *place = *word;
    }
}

// Puts the words of a record into a lent list, as far as it reaches.
pub(crate) fn put_record(out: &mut [u32], r: Record) {
    let m = r.machine;
    put_at(out, 0, &[m.row, m.open, m.count]);
    put_at(out, NUMBERS, &m.numbers);
    put_at(out, BASES, &m.bases);
    put_at(out, LOOP_ROWS, &m.loop_rows);
    put_at(out, STARTS, &m.starts);
    put_at(out, ENDS, &m.ends);
    put_at(out, FIRSTS, &m.firsts);
    put_at(out, LENGTHS, &m.lengths);
    put_at(out, SHAPES, &m.shapes.map(u32::from));
    put_at(out, CALLERS, &r.stack);
}
