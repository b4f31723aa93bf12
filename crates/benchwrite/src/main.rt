// Writes choices into a long list. Standard input is one message, after its length in bytes: eight words, 7, c1, c2, the limit, the number T of
// a table's words, the room L of the list, and two that are not read, and then the T words. The answer goes to standard output with no length:
// the head that `wire` says, and the numbers written. A message that does not fit is not answered.
// The list is on the stack, so the one who starts the program raises the limit of the stack first.
#![tactic(auto)]

ghost use Rattle.std.specs.Prelude.{◌≤◌};

use lists::word_or_zero;
use machine::Machine;
use runs::Ran;
use std::io::{self, Write};
use table::Refusal;
use wire::{head_of, next_message, put_words, send_words};

// The bytes and words of the longest message.
const ROOM: usize = 262144;

const WORDS: usize = 65536;

// The words of a message's head.
const HEAD: usize = 8;

// Where a head has how many numbers were written: the low word, and all of it where they fit a list of this program.
const USED: usize = 5;

// The lengths of the lists; the shortest that is long enough is used.
const SHORT: usize = 1048576;

const MIDDLE: usize = 16777216;

const LONG: usize = 268435456;

// What the head of a message asks for.
#[derive(Clone, Copy)]
struct Asked {
    c1: u32,
    c2: u32,
    limit: u32,
    room: usize,
}

fn asked_by(w: &[u32]) -> Asked {
    Asked {
        c1: word_or_zero(w, 1),
        c2: word_or_zero(w, 2),
        limit: word_or_zero(w, 3),
        room: word_or_zero(w, 5) as usize,
    }
}

// Sends what the writer came to, and the numbers.
fn send<W: Write>(to: &mut W, answer: Result<Ran, Refusal>, list: &[u32]) -> io::Result<()> {
    let head = head_of(answer);
    let Some(numbers) = list.get(..head[USED] as usize) else {
        return Ok(());
    };
    send_words(to, &head)?;
    send_words(to, numbers)
}

// The choices, into a lent list.
fn write<W: Write>(to: &mut W, q: Asked, t: &[u32], list: &mut [u32]) {
    let mut cells = [0u32; Machine::PLAIN_CELLS];
    let answer = choices::write_choices(t, q.c1, q.c2, &mut cells, list, q.limit);
    let _ = send(to, answer, list);
}

// The same, in the first n numbers of a longer list.
fn write_front<W: Write>(to: &mut W, q: Asked, t: &[u32], list: &mut [u32], n: usize) {
    if list.len() < n {
        return;
    }
    write(to, q, t, &mut list[..n]);
}

// The choices, into the first n numbers of a list of N.
fn in_list<const N: usize, W: Write>(to: &mut W, q: Asked, t: &[u32], n: usize)
    requires { N ≤ 268435456 }
{
    let mut list = [0u32; N];
    write_front(to, q, t, &mut list, n);
}

fn in_short<W: Write>(to: &mut W, q: Asked, t: &[u32], n: usize) {
    in_list::<SHORT, W>(to, q, t, n);
}

fn in_middle<W: Write>(to: &mut W, q: Asked, t: &[u32], n: usize) {
    in_list::<MIDDLE, W>(to, q, t, n);
}

fn in_long<W: Write>(to: &mut W, q: Asked, t: &[u32], n: usize) {
    in_list::<LONG, W>(to, q, t, n);
}

// How long the list of a tier is.
fn room_of(tier: u32) -> usize {
    match tier {
        0 => SHORT,
        1 => MIDDLE,
        _ => LONG,
    }
}

// Writes the choices into the list of a tier, or into that of a lower one that is long enough: whether one was. It calls itself before it
// lends a list: so a compiler keeps the lists in frames of their own, and a short one takes no more than its own room.
fn lend<W: Write>(to: &mut W, q: Asked, t: &[u32], tier: u32) -> bool {
    if 0 < tier {
        if lend(to, q, t, tier - 1) {
            return true;
        }
    }
    let n = q.room;
    if room_of(tier) < n {
        return false;
    }
    match tier {
        0 => in_short(to, q, t, n),
        1 => in_middle(to, q, t, n),
        _ => in_long(to, q, t, n),
    }
    true
}

// The table of a message.
fn answer<W: Write>(to: &mut W, w: &[u32]) {
    if w.len() < HEAD {
        return;
    }
    let t = &w[HEAD..];
    if word_or_zero(w, 0) != 7 || word_or_zero(w, 4) as usize != t.len() {
        return;
    }
    lend(to, asked_by(w), t, 2);
}

// Puts the words of a message into a lent buffer, and answers.
fn filled<W: Write>(to: &mut W, words: &mut [u32], s: &[u8]) {
    put_words(words, s);
    answer(to, words);
}

fn words_of<W: Write>(to: &mut W, s: &[u8]) {
    let n = s.len() / 4;
    if s.len() % 4 != 0 {
        return;
    }
    if WORDS < n {
        return;
    }
    let mut words = [0u32; WORDS];
    filled(to, &mut words[..n], s);
}

fn main(rt: HostRuntime) {
    let mut room = [0u8; ROOM];
    if let Some(n) = next_message(&mut rt.stdin(), &mut room) {
        words_of(&mut rt.stdout(), &room[..n]);
    }
}
