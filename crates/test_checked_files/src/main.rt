// Runs cases of files from standard input, each after its length: the reader, the table checks, the pair check, the reduction and the
// writer, and prints a line for each case.
#![tactic(auto)]

use file::{read_file, write_file};
use std::io::Write;
use table::{Check, Refusal, check_table};
use testing::{print, print_part, print_refusal};
use wire::{next_message, word};

const ROOM: usize = 24576;

const TABLE: usize = 5248;

const FILE: usize = 22016;

// The table is written again as the file that it was read from.
fn written_again<W: Write>(to: &mut W, words: &[u32], file: &[u8]) -> Result<(), Refusal> {
    let mut out = [0u8; FILE];
    let n = write_file(words, &mut out)? as usize;
    if n <= FILE && &out[..n] == file {
        print_part(to, b"passes ", (words.len() / 4) as u64);
        print(to, b"\n");
    } else {
        print(to, b"differs\n");
    }
    Ok(())
}

// The table is reduced into a lent one, which passes the reduced checks.
fn reduced_passes(words: &[u32], c1: u32, c2: u32, lent: &mut [u32]) -> Result<(), Refusal> {
    reduction::reduce_table(words, c1, c2, lent)?;
    check_table(lent, true)
}

// What is said of a file that is not refused. A limit of 2^32 - 1 stands for a file that holds a reduced table.
fn read<W: Write>(to: &mut W, file: &[u8], c1: u32, c2: u32, limit: u32) -> Result<(), Refusal> {
    let mut words = [0u32; TABLE];
    let end = 4 * read_file(file, &mut words)? as usize;
    if TABLE < end {
        return Ok(());
    }
    let table = &words[..end];
    let mut lent = [0u32; TABLE];
    if limit == u32::MAX {
        check_table(table, true)?;
        print(to, b"passes reduced\n");
        return Ok(());
    }
    reduced_passes(table, c1, c2, &mut lent[..end])?;
    written_again(to, table, file)
}

// What is said of a case: three words, and a file.
fn checked<W: Write>(to: &mut W, s: &[u8]) -> Result<(), Refusal> {
    if s.len() < 12 {
        return Err(Refusal {
            check: Check::FileLength,
            place: 0,
        });
    }
    read(to, &s[12..], word(s, 0), word(s, 4), word(s, 8))
}

// The line of a case.
fn report<W: Write>(to: &mut W, s: &[u8]) {
    if let Err(r) = checked(to, s) {
        print_refusal(to, r.check.number(), r.place as u64);
        print(to, b"\n");
    }
}

fn main(rt: HostRuntime) {
    let mut room = [0u8; ROOM];
    let mut from = rt.stdin();
    let mut to = rt.stdout();
    for _ in 0..1000u32 {
        let Some(n) = next_message(&mut from, &mut room) else {
            return;
        };
        report(&mut to, &room[..n]);
    }
}
