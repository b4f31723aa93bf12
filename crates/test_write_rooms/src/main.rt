// Writes the choices of T (rule 8.9), of a table of calls and of T with a write that fails, for the pair 1, 3 into lists of every length from 0
// to 31, lent full of sevens, and prints for each the end, the row, the steps, how many numbers were written, parts of the record, the check
// number of the cells, which were sevens too, and the list at exit.
#![tactic(auto)]

ghost use Rattle.std.specs.Prelude.{◌≤◌};

use calls::DEPTH;
use runs::Ran;
use std::io::Write;
use table::Refusal;
use testing::{check_of_words, print, print_part};

const MOST: usize = 31;

const CELLS: usize = 4096;

// The table T (rule 8.9).
const T: [u32; 64] = [
    2, 1, 0, 0, 3, 1, 0, 0, 17, 5, 0, 0, 17, 0, 0, 0, 17, 4, 0, 0, 16, 1, 0, 0, 16, 0, 0, 0, 20, 3,
    4, 0, 17, 7, 0, 0, 19, 5, 0, 0, 24, 7, 6, 0, 37, 1, 0, 0, 38, 0, 1, 2, 34, 5, 6, 0, 35, 8, 0,
    0, 39, 0, 0, 0,
];

// A marked loop in main calls procedure 0, which returns in a loop of the same iterator; then main calls procedure 2, which has no rows, and
// procedure 1, which calls itself until that is too deep. The other calls and the return take a choice each.
const CALLS: [u32; 88] = [
    2, 1, 0, 0, 2, 0, 0, 0, 2, 0, 0, 0, 2, 0, 0, 0, 2, 0, 0, 0, 17, 0, 0, 0, 17, 1, 0, 0, 16, 0, 0,
    0, 16, 2, 0, 0, 20, 3, 2, 0, 38, 0, 0, 1, 45, 0, 2, 1, 39, 0, 0, 0, 45, 2, 0, 1, 45, 1, 2, 1,
    43, 2, 1, 0, 38, 0, 0, 0, 44, 4, 0, 0, 39, 0, 0, 0, 43, 3, 1, 0, 45, 1, 2, 3, 43, 4, 1, 0,
];

fn print_word<W: Write>(to: &mut W, word: u32) {
    print_part(to, b" ", u64::from(word));
}

fn print_list<W: Write>(to: &mut W, list: &[u32]) {
    for number in list {
        print_word(to, *number);
    }
    print(to, b"\n");
}

fn print_ran<W: Write>(to: &mut W, ran: Ran, cells: &[u32]) {
    let record = ran.record;
    let machine = record.machine;
    testing::print_end(to, ran.end);
    print_part(to, b" row ", u64::from(machine.row));
    print_part(to, b" steps ", u64::from(ran.steps));
    print_part(to, b" count ", ran.used);
    print_part(to, b" open ", u64::from(machine.open));
    print_part(to, b" arrays ", u64::from(machine.count));
    print(to, b" callers");
    print_word(to, record.stack[DEPTH]);
    print(to, b" iterator");
    print_word(to, machine.numbers[0]);
    print_part(to, b" cells ", u64::from(check_of_words(cells)));
    print(to, b":");
}

fn print_answer<W: Write>(to: &mut W, answer: Result<Ran, Refusal>, cells: &[u32]) {
    print(to, b" ");
    match answer {
        Ok(ran) => print_ran(to, ran, cells),
        Err(r) => testing::print_refusal(to, r.check.number(), r.place as u64),
    }
}

fn write_in<W: Write>(to: &mut W, t: &[u32], list: &mut [u32]) {
    let mut cells = [7u32; CELLS];
    let answer = choices::write_choices(t, 1, 3, &mut cells, list, 100);
    print_answer(to, answer, &cells);
    print_list(to, list);
}

fn write_room<W: Write>(to: &mut W, t: &[u32], room: usize)
    requires { room ≤ 31 }
{
    let mut list = [7u32; MOST];
    print_part(to, b"room ", room as u64);
    write_in(to, t, &mut list[..room]);
}

fn write_rooms<W: Write>(to: &mut W, t: &[u32]) {
    for room in 0..MOST + 1 {
        write_room(to, t, room);
    }
}

// The last table is T with 5 for the end of its walk, one circuit too far: the write there fails.
fn main(rt: HostRuntime) {
    let mut to = rt.stdout();
    write_rooms(&mut to, &T);
    write_rooms(&mut to, &CALLS);
    let mut far = T;
    far[17] = 5;
    write_rooms(&mut to, &far);
}
