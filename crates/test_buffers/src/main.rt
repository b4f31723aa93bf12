// Calls the reader, the writer, the reduction and the checks of tables and pairs one by one, with buffers of any size and fill. Cases come
// from standard input, each after its length; make_cases.py says how one is laid out. Of each a line is printed: the answer, and where a
// buffer is lent the check number of all of it at exit.
#![tactic(auto)]

use file::{read_file, write_file};
use std::io::Write;
use table::Refusal;
use testing::{check_of, print, print_part, print_refusal, print_verdict};
use wire::{next_message, put_words, word};

// The bytes of the longest case.
const ROOM: usize = 42008;

// The bytes before the input of a case: six words.
const HEAD: usize = 24;

// The most words and bytes that are lent, and the most words of a table.
const WORDS: usize = 10496;

const BYTES: usize = 44032;

// The refusal that a check gave, or that there is none.
fn print_checked<W: Write>(to: &mut W, checked: Result<(), Refusal>) {
    print_verdict(to, checked.map_err(|r| (r.check.number(), r.place as u64)));
}

// The check number of a buffer that was lent.
fn print_buffer<W: Write, T: Copy + Into<u32>>(to: &mut W, lent: &[T]) {
    print_part(to, b" buffer ", u64::from(check_of(lent)));
}

fn read_into<W: Write>(to: &mut W, file: &[u8], lent: &mut [u32]) {
    match read_file(file, lent) {
        Ok(lines) => print_part(to, b"lines ", u64::from(lines)),
        Err(r) => print_refusal(to, r.check.number(), r.place as u64),
    }
    print_buffer(to, lent);
}

fn write_into<W: Write>(to: &mut W, words: &[u32], lent: &mut [u8]) {
    match write_file(words, lent) {
        Ok(bytes) => print_part(to, b"bytes ", u64::from(bytes)),
        Err(r) => print_refusal(to, r.check.number(), r.place as u64),
    }
    print_buffer(to, lent);
}

fn reduce_into<W: Write>(to: &mut W, words: &[u32], c1: u32, c2: u32, lent: &mut [u32]) {
    print_checked(to, reduction::reduce_table(words, c1, c2, lent));
    print_buffer(to, lent);
}

// The reader or the reduction, with a buffer of so many words, each the same; a longer one is not lent.
fn lend_words<W: Write>(to: &mut W, head: &[u8], input: &[u8], words: &[u32], n: usize, fill: u32) {
    if WORDS < n {
        return;
    }
    let mut lent = [fill; WORDS];
    if word(head, 0) == 0 {
        read_into(to, input, &mut lent[..n]);
    } else {
        reduce_into(to, words, word(head, 12), word(head, 16), &mut lent[..n]);
    }
}

// The writer, with a buffer of so many bytes, each the same; a longer one is not lent.
fn lend_bytes<W: Write>(to: &mut W, words: &[u32], n: usize, fill: u8) {
    if BYTES < n {
        return;
    }
    let mut lent = [fill; BYTES];
    write_into(to, words, &mut lent[..n]);
}

// The call that the head of a case asks for; its input is bytes, and beside them the words that they spell.
fn call<W: Write>(to: &mut W, head: &[u8], input: &[u8], words: &[u32]) {
    let n = word(head, 4) as usize;
    let fill = word(head, 8);
    match word(head, 0) {
        0 | 2 => lend_words(to, head, input, words, n, fill),
        1 => lend_bytes(to, words, n, (fill % 256) as u8),
        3 => print_checked(to, table::check_table(words, false)),
        4 => print_checked(to, table::check_table(words, true)),
        _ => print_checked(to, reduction::check_pair(word(head, 12), word(head, 16))),
    }
    print(to, b"\n");
}

// Puts the words of the input into a lent buffer, and calls.
fn filled<W: Write>(to: &mut W, head: &[u8], input: &[u8], words: &mut [u32]) {
    put_words(words, input);
    call(to, head, input, words);
}

// A case and its line; of one that is not laid out as it should be nothing is printed.
fn report<W: Write>(to: &mut W, s: &[u8]) {
    if s.len() < HEAD {
        return;
    }
    let input = &s[HEAD..];
    if input.len() != word(s, 20) as usize {
        return;
    }
    let n = input.len() / 4;
    if WORDS < n {
        return;
    }
    let mut words = [0u32; WORDS];
    filled(to, s, input, &mut words[..n]);
}

fn main(rt: HostRuntime) {
    let mut room = [0u8; ROOM];
    let mut from = rt.stdin();
    let mut to = rt.stdout();
    for _ in 0..1000u32 {
        let Some(n) = next_message(&mut from, &mut room) else {
            return;
        };
        report(&mut to, &room[..n]);
    }
}
