// Answers messages from standard input, each after its length, with a message on standard output: files read and written, tables reduced,
// runs, and choices written. It stops when there is no message, when one does not fit, or when an answer cannot be written.
// A message is eight words, what is asked, c1, c2, the limit, and the numbers T, L, K and W, and then words or bytes:
//   0  the bytes of a file, to read
//   1  T words of a table, to write as a file
//   2  T words of a table, to reduce
//   3  T words of a table and L choices, for a plain run
//   4  the same, 380 words of a record and K cells, for a plain run from there on
//   5  as 3, for a reduced run of a reduced table
//   6  as 4, for a reduced run of a reduced table
//   7  T words of a table, for the choice writer with a list of L
//   8  the bytes of a file, for a plain run of its table
// An answer is a head of eight words and what is asked for. Of 0, 1 and 2 the head is a refusal's number and place, or 0, and how many lines
// or bytes there are; of the others it is what `wire` says. After a run stand its record and the first W cells.
#![tactic(auto)]

mod record_words; // record_words.rt: a record as words

ghost use Rattle.std.specs.Prelude.{◌≤◌};

use lists::word_or_zero;
use machine::Machine;
use record_words::{put_at, put_record, record_of};
use runs::Ran;
use std::io::{Read, Write};
use table::Refusal;
use wire::{head_of, refused_head, send_words, size, word};

// The bytes and words of the longest message.
const ROOM: usize = 262144;

const WORDS: usize = 65536;

// The words of a message's head, and the bytes.
const HEAD: usize = 8;

const HEAD_BYTES: usize = 32;

// An answer's words: its length, its head, and what follows; of a run the record and the cells.
const OUT: usize = 65545;

const BODY: usize = 9;

const CELLS_AT: usize = 389;

// The words of the longest table, and where it ends in an answer.
const TABLE: usize = 5248;

const TABLE_END: usize = 5257;

const FILE: usize = 22016;

// Where a head has how many choices were used, or numbers written: the low word, and all of it where they fit a buffer of this program.
const USED: usize = 5;

// The most numbers that the choice writer writes.
const LIST: usize = 8192;

// What the head of a message asks for.
#[derive(Clone, Copy)]
struct Asked {
    what: u32,
    c1: u32,
    c2: u32,
    limit: u32,
    table: usize,
    list: usize,
    cells: usize,
    wanted: usize,
}

fn asked_by(w: &[u32]) -> Asked {
    Asked {
        what: word_or_zero(w, 0),
        c1: word_or_zero(w, 1),
        c2: word_or_zero(w, 2),
        limit: word_or_zero(w, 3),
        table: size(word_or_zero(w, 4)),
        list: size(word_or_zero(w, 5)),
        cells: size(word_or_zero(w, 6)),
        wanted: size(word_or_zero(w, 7)),
    }
}

// Answers

// Puts the length of an answer and its head in front; so many bytes follow them.
fn put_head(out: &mut [u32], head: [u32; 8], bytes: u32) {
    put_at(out, 0, &[bytes.wrapping_add(32)]);
    put_at(out, 1, &head);
}

// Sends a head and the first n words that stand after its place: whether all was written.
fn send<W: Write>(to: &mut W, out: &mut [u32], head: [u32; 8], n: usize) -> bool {
    if WORDS < n {
        return false;
    }
    put_head(out, head, (4 * n) as u32);
    let end = BODY + n;
    if out.len() < end {
        return false;
    }
    send_words(to, &out[..end]).is_ok()
}

// Sends the head of a refusal.
fn send_refusal<W: Write>(to: &mut W, out: &mut [u32], r: Refusal) -> bool {
    send(to, out, refused_head(r), 0)
}

fn count(n: u32) -> [u32; 8] {
    [0, 0, n, 0, 0, 0, 0, 0]
}

// Files

fn read<W: Write>(to: &mut W, s: &[u8], out: &mut [u32]) -> bool {
    if out.len() < TABLE_END {
        return false;
    }
    match file::read_file(s, &mut out[BODY..TABLE_END]) {
        Ok(n) => send(to, out, count(n), 4 * size(n)),
        Err(r) => send_refusal(to, out, r),
    }
}

// Sends a head and the first n bytes of a file.
fn send_file<W: Write>(to: &mut W, out: &mut [u32], lent: &[u8], n: u32) -> bool {
    put_head(out, count(n), n);
    let (Some(head), Some(bytes)) = (out.get(..BODY), lent.get(..size(n))) else {
        return false;
    };
    send_words(to, head).is_ok() && to.write_all(bytes).is_ok()
}

fn write<W: Write>(to: &mut W, t: &[u32], out: &mut [u32], lent: &mut [u8]) -> bool {
    match file::write_file(t, lent) {
        Ok(n) => send_file(to, out, lent, n),
        Err(r) => send_refusal(to, out, r),
    }
}

// The reduction

fn reduce<W: Write>(to: &mut W, q: Asked, t: &[u32], out: &mut [u32]) -> bool {
    let n = t.len();
    if WORDS < n {
        return false;
    }
    let end = BODY + n;
    if out.len() < end {
        return false;
    }
    match reduction::reduce_table(t, q.c1, q.c2, &mut out[BODY..end]) {
        Ok(()) => send(to, out, count(0), n),
        Err(r) => send_refusal(to, out, r),
    }
}

// Runs

fn is_reduced(what: u32) -> bool {
    4 < what
}

fn is_continued(what: u32) -> bool {
    what == 4 || what == 6
}

// How many cells the machine has.
fn cells_of(what: u32) -> usize
    ensures { result ≤ 4128 }
{
    if is_reduced(what) {
        return Machine::REDUCED_CELLS;
    }
    Machine::PLAIN_CELLS
}

// Puts words into the cells, and 0 into those past them.
fn put_cells(cells: &mut [u32], words: &[u32]) {
    for (i, cell) in cells.iter_mut().enumerate() {
        *cell = word_or_zero(words, i);
    }
}

fn fresh(q: Asked, t: &[u32], list: &[u32], cells: &mut [u32]) -> Result<Ran, Refusal> {
    if is_reduced(q.what) {
        return runs::run_reduced(t, q.c1, q.c2, cells, list, q.limit);
    }
    runs::run_plain(t, cells, q.limit)
}

// A run from the record and the cells in a message on.
fn continued(
    q: Asked,
    t: &[u32],
    list: &[u32],
    kept: &[u32],
    cells: &mut [u32],
) -> Result<Ran, Refusal> {
    let r = record_of(kept);
    put_cells(cells, record_words::from(kept, record_words::WORDS));
    if is_reduced(q.what) {
        return runs::continue_reduced(r, t, q.c1, q.c2, cells, list, q.limit);
    }
    runs::continue_plain(r, t, cells, q.limit)
}

fn ran(q: Asked, t: &[u32], list: &[u32], kept: &[u32], cells: &mut [u32]) -> Result<Ran, Refusal> {
    if is_continued(q.what) {
        return continued(q, t, list, kept, cells);
    }
    fresh(q, t, list, cells)
}

// How many cells are sent: as many as are asked for, and no more than there are.
fn shown(q: Asked) -> usize
    ensures { result ≤ 4128 }
{
    cells_of(q.what).min(q.wanted)
}

// Sends what a run came to, its record and its cells, which stand in their place.
fn send_run<W: Write>(to: &mut W, q: Asked, answer: Result<Ran, Refusal>, out: &mut [u32]) -> bool {
    let ran = match answer {
        Ok(ran) => ran,
        Err(r) => return send_refusal(to, out, r),
    };
    if out.len() < CELLS_AT {
        return false;
    }
    put_record(&mut out[BODY..CELLS_AT], ran.record);
    send(to, out, head_of(answer), record_words::WORDS + shown(q))
}

fn run_in<W: Write>(
    to: &mut W,
    q: Asked,
    t: &[u32],
    list: &[u32],
    kept: &[u32],
    out: &mut [u32],
) -> bool {
    let end = CELLS_AT + cells_of(q.what);
    if out.len() < end {
        return false;
    }
    let a = ran(q, t, list, kept, &mut out[CELLS_AT..end]);
    send_run(to, q, a, out)
}

// Whether what follows the choices is as long as it should be.
fn kept_fits(q: Asked, n: usize) -> bool {
    let cells = q.cells;
    if is_continued(q.what) {
        return cells <= Machine::REDUCED_CELLS && n == record_words::WORDS + cells;
    }
    n == 0
}

// The list and the kept state after the table.
fn run<W: Write>(to: &mut W, q: Asked, t: &[u32], after: &[u32], out: &mut [u32]) -> bool {
    let n = q.list;
    if after.len() < n {
        return false;
    }
    let kept = &after[n..];
    if !kept_fits(q, kept.len()) {
        return false;
    }
    run_in(to, q, t, &after[..n], kept, out)
}

// What a message with a file asks for: a plain run.
fn asked_of_file(s: &[u8]) -> Asked {
    Asked {
        what: 3,
        c1: 0,
        c2: 0,
        limit: word(s, 12),
        table: 0,
        list: 0,
        cells: 0,
        wanted: size(word(s, 28)),
    }
}

// A run of the table that is the first n words.
fn run_first<W: Write>(to: &mut W, q: Asked, words: &[u32], n: usize, out: &mut [u32]) -> bool {
    let none = [0u32; 0];
    if words.len() < n {
        return false;
    }
    run_in(to, q, &words[..n], &none, &none, out)
}

// A run of the table in a file, which is read into a lent buffer.
fn run_file<W: Write>(to: &mut W, s: &[u8], words: &mut [u32], out: &mut [u32]) -> bool {
    if words.len() < TABLE || s.len() < HEAD_BYTES {
        return false;
    }
    match file::read_file(&s[HEAD_BYTES..], &mut words[..TABLE]) {
        Ok(n) => run_first(to, asked_of_file(s), words, 4 * size(n), out),
        Err(r) => send_refusal(to, out, r),
    }
}

// Choices

fn choose<W: Write>(to: &mut W, q: Asked, t: &[u32], out: &mut [u32]) -> bool {
    let n = q.list;
    if LIST < n {
        return false;
    }
    let end = BODY + n;
    if out.len() < end {
        return false;
    }
    let mut cells = [0u32; Machine::PLAIN_CELLS];
    let answer = choices::write_choices(t, q.c1, q.c2, &mut cells, &mut out[BODY..end], q.limit);
    let head = head_of(answer);
    send(to, out, head, size(head[USED]))
}

// Messages

// What is asked of a table alone.
fn of_table<W: Write>(to: &mut W, q: Asked, t: &[u32], out: &mut [u32], lent: &mut [u8]) -> bool {
    match q.what {
        1 => write(to, t, out, lent),
        2 => reduce(to, q, t, out),
        7 => choose(to, q, t, out),
        _ => false,
    }
}

// The table, and what stands after it.
fn of_body<W: Write>(to: &mut W, q: Asked, body: &[u32], out: &mut [u32], lent: &mut [u8]) -> bool {
    let n = q.table;
    if body.len() < n {
        return false;
    }
    if (3..=6).contains(&q.what) {
        return run(to, q, &body[..n], &body[n..], out);
    }
    if body.len() != n {
        return false;
    }
    of_table(to, q, body, out, lent)
}

// The head, and what stands after it.
fn answer_words<W: Write>(to: &mut W, w: &[u32], out: &mut [u32], lent: &mut [u8]) -> bool {
    if w.len() < HEAD {
        return false;
    }
    of_body(to, asked_by(w), &w[HEAD..], out, lent)
}

// Puts the words of a message into a lent buffer, and answers.
fn filled<W: Write>(
    to: &mut W,
    words: &mut [u32],
    s: &[u8],
    out: &mut [u32],
    lent: &mut [u8],
) -> bool {
    wire::put_words(words, s);
    answer_words(to, words, out, lent)
}

// Answers a message of whole words.
fn in_words<W: Write>(
    to: &mut W,
    s: &[u8],
    words: &mut [u32],
    out: &mut [u32],
    lent: &mut [u8],
) -> bool {
    let n = s.len() / 4;
    if s.len() % 4 != 0 || words.len() < n {
        return false;
    }
    filled(to, &mut words[..n], s, out, lent)
}

// Answers a message: whether it fits, and the answer was written.
fn answer<W: Write>(
    to: &mut W,
    s: &[u8],
    words: &mut [u32],
    out: &mut [u32],
    lent: &mut [u8],
) -> bool {
    if s.len() < HEAD_BYTES {
        return false;
    }
    match word(s, 0) {
        0 => read(to, &s[HEAD_BYTES..], out),
        8 => run_file(to, s, words, out),
        _ => in_words(to, s, words, out, lent),
    }
}

// One message: whether there was one that fits, and it was answered.
fn next<R: Read, W: Write>(
    from: &mut R,
    to: &mut W,
    room: &mut [u8],
    words: &mut [u32],
    out: &mut [u32],
    lent: &mut [u8],
) -> bool {
    let Some(n) = wire::next_message(from, room) else {
        return false;
    };
    answer(to, &room[..n], words, out, lent)
}

fn main(rt: HostRuntime) {
    let mut room = [0u8; ROOM];
    let mut words = [0u32; WORDS];
    let mut out = [0u32; OUT];
    let mut lent = [0u8; FILE];
    let mut from = rt.stdin();
    let mut to = rt.stdout();
    for _ in 0..4000000000u32 {
        if !next(
            &mut from, &mut to, &mut room, &mut words, &mut out, &mut lent,
        ) {
            return;
        }
    }
}
