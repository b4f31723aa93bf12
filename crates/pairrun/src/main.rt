// The bench program: reads a pair, a limit of steps and a file from standard input, and prints the plain run and the reduced run under
// the written choices, or a refusal. An input that cannot be read, or an output that cannot be written whole, gets a line on standard error.
#![tactic(auto)]

ghost use Rattle.std.specs.Prelude.{◌≤◌, length};

use printing::print_pair;
use std::io::{Read, Write};

// One byte more than the longest input that is not refused for its length: 12 bytes and a file of 22,016.
const ROOM: usize = 22029;

// Reads until a lent buffer is full, the input ends or a read fails: how many bytes were put at the front.
fn read_full<R: Read>(from: &mut R, room: &mut [u8]) -> usize
    ensures { result ≤ length room.new }
{
    let mut done = 0;
    while done < room.len() {
        match from.read(&mut room[done..]) {
            Ok(0) | Err(_) => return done,
            Ok(n) => done += n,
        }
    }
    done
}

// Whether another read fails, as it does where the input cannot be read; at its end a read gives no bytes.
fn cannot_read<R: Read>(from: &mut R) -> bool {
    from.read(&mut [0u8; 1]).is_err()
}

// Writes a line to standard error; where that fails there is no one to tell.
fn complain<W: Write>(to: &mut W, line: &[u8]) {
    let _ = to.write_all(line);
}

fn main(rt: HostRuntime) {
    let mut from = rt.stdin();
    let mut input = [0u8; ROOM];
    let n = read_full(&mut from, &mut input);
    if n < ROOM && cannot_read(&mut from) {
        complain(&mut rt.stderr(), b"pairrun: the input cannot be read\n");
        return;
    }
    if !print_pair(&mut rt.stdout(), &input[..n]) {
        complain(&mut rt.stderr(), b"pairrun: the output cannot be written\n");
    }
}
