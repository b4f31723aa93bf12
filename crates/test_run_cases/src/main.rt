// Runs cases of tables from standard input, each after its length: a fresh run of a machine and the runs that continue it. It prints a
// line for each run, with check numbers of the record and of the cells, and where the case asks for it how many cuts leave the run what it
// is. make_cases.py says how a case is laid out.
#![tactic(auto)]

mod cuts; // cuts.rt: a run in parts

ghost use Rattle.std.specs.Prelude.{◌<◌, ◌≤◌};

use calls::{CALLER, DEPTH, STACK};
use cuts::Whole;
use lists::word_or_zero;
use machine::{Machine, Record};
use runs::Ran;
use std::io::{Read, Write};
use table::Refusal;
use testing::{check_of_words, mixed, print, print_end, print_part};
use wire::size;

const ROOM: usize = 262144;

const WORDS: usize = 65536;

const CELLS: usize = 4200;

const HEAD: usize = 7;

// What the head of a case says of its runs: the machine, the pair, how often the first run is done, and whether they are cut.
#[derive(Clone, Copy)]
struct Asked {
    reduced: bool,
    c1: u32,
    c2: u32,
    times: u32,
    cut: bool,
}

// What a run leaves to the next one.
#[derive(Clone, Copy)]
struct Kept {
    record: Record,
    used: usize,
}

// Check numbers

fn with_loops(mut h: u32, m: Machine) -> u32 {
    let open = m.open as usize;
    for i in 0..open.min(8) {
        h = mixed(mixed(mixed(h, m.loop_rows[i]), m.starts[i]), m.ends[i]);
    }
    h
}

// The kind of a declaration; 0 or another kind past the declarations.
fn kind_of(t: &[u32], i: usize) -> u32
    requires { i < 33 }
{
    word_or_zero(t, 4 * i)
}

// A variable's number, and its base after it if it is a pointer.
fn with_variable(h: u32, kind: u32, number: u32, base: u32) -> u32 {
    let n = mixed(h, number);
    if kind == 3 { mixed(n, base) } else { n }
}

fn with_variables(mut h: u32, m: Machine, t: &[u32]) -> u32 {
    for i in 0..32 {
        let kind = kind_of(t, i);
        if !(1..=3).contains(&kind) {
            return h;
        }
        h = with_variable(h, kind, m.numbers[i], m.bases[i]);
    }
    h
}

fn with_arrays(mut h: u32, m: Machine) -> u32 {
    let count = m.count as usize;
    for i in 0..count.min(16) {
        h = mixed(
            mixed(mixed(h, m.firsts[i]), m.lengths[i]),
            u32::from(m.shapes[i] == 1),
        );
    }
    h
}

// How many locals what a row belongs to has: as many as the last 43 above it says, or none in main.
fn local_count(t: &[u32], row: u32) -> u32 {
    let mut above = row;
    let mut count: u32 = 0;
    for line in t.chunks_exact(4) {
        if 32 <= line[0] {
            if above == 0 {
                return count;
            }
            above -= 1;
        }
        if line[0] == 43 {
            count = line[2];
        }
    }
    count
}

// The locals of a caller, whose words stand from a place on, so many.
fn with_kept_locals(mut h: u32, stack: &[u32; STACK], at: usize, count: u32) -> u32
    requires { at ≤ 210 }
{
    let locals = count as usize;
    for i in 0..locals.min(4) {
        h = mixed(h, stack[at + 2 + i]);
    }
    h
}

// The open loops of a caller, as many as its words say.
fn with_kept_loops(mut h: u32, stack: &[u32; STACK], at: usize) -> u32
    requires { at ≤ 210 }
{
    let open = size(stack[at + 1]);
    for i in 0..open.min(8) {
        h = mixed(
            mixed(mixed(h, stack[at + 6 + i]), stack[at + 14 + i]),
            stack[at + 22 + i],
        );
    }
    h
}

// A caller: its row, its locals, how many loops are open, and these.
fn with_caller(h: u32, stack: &[u32; STACK], at: usize, t: &[u32]) -> u32
    requires { at ≤ 210 }
{
    let row = stack[at];
    let locals = with_kept_locals(mixed(h, row), stack, at, local_count(t, row));
    with_kept_loops(mixed(locals, stack[at + 1]), stack, at)
}

// The callers, the one in main first.
fn with_callers(mut h: u32, stack: &[u32; STACK], t: &[u32]) -> u32 {
    let callers = size(stack[DEPTH]);
    for d in 0..callers.min(8) {
        h = with_caller(h, stack, CALLER * d, t);
    }
    h
}

// The check number of the parts of a record that are in use.
fn record_check(r: Record, t: &[u32]) -> u32 {
    let m = r.machine;
    let stack = r.stack;
    let loops = with_loops(mixed(mixed(0, m.row), m.open), m);
    let variables = with_variables(loops, m, t);
    let arrays = with_arrays(mixed(variables, m.count), m);
    with_callers(mixed(arrays, stack[DEPTH]), &stack, t)
}

// Output

fn print_ran<W: Write>(to: &mut W, r: Ran, t: &[u32]) {
    print_end(to, r.end);
    print_part(to, b" row ", u64::from(r.record.machine.row));
    print_part(to, b" steps ", u64::from(r.steps));
    print_part(to, b" choices ", r.used);
    print_part(to, b" record ", u64::from(record_check(r.record, t)));
}

fn print_answer<W: Write>(to: &mut W, answer: Result<Ran, Refusal>, t: &[u32], cells: &[u32]) {
    match answer {
        Ok(ran) => print_ran(to, ran, t),
        Err(r) => testing::print_refusal(to, r.check.number(), r.place as u64),
    }
    print_part(to, b" cells ", u64::from(check_of_words(cells)));
}

// Edits of a record and of the cells

fn edited_loop(mut m: Machine, field: u32, slot: usize, value: u32) -> Machine {
    if 8 <= slot {
        return m;
    }
    match field {
        2 => m.loop_rows[slot] = value,
        3 => m.starts[slot] = value,
        _ => m.ends[slot] = value,
    }
    m
}

fn edited_variable(mut m: Machine, field: u32, slot: usize, value: u32) -> Machine {
    if 32 <= slot {
        return m;
    }
    if field == 5 {
        m.numbers[slot] = value;
    } else {
        m.bases[slot] = value;
    }
    m
}

fn edited_array(mut m: Machine, field: u32, slot: usize, value: u32) -> Machine {
    if 16 <= slot {
        return m;
    }
    match field {
        8 => m.firsts[slot] = value,
        9 => m.lengths[slot] = value,
        _ => m.shapes[slot] = u8::try_from(value).unwrap_or(u8::MAX),
    }
    m
}

// The machine with one part changed; fields 11 on are of the cells and of the stack.
fn edited_part(mut m: Machine, field: u32, slot: usize, value: u32) -> Machine {
    match field {
        0 => m.row = value,
        1 => m.open = value,
        7 => m.count = value,
        2..=4 => return edited_loop(m, field, slot, value),
        5..=6 => return edited_variable(m, field, slot, value),
        8..=10 => return edited_array(m, field, slot, value),
        _ => {}
    }
    m
}

// The stack with one word changed: field 12 is how many callers there are, field 13 is any word.
fn edited_stack(mut stack: [u32; STACK], field: u32, slot: usize, value: u32) -> [u32; STACK] {
    if field == 12 {
        stack[DEPTH] = value;
    }
    if field == 13 && slot < STACK {
        stack[slot] = value;
    }
    stack
}

// The record with one part changed.
fn edited_record(r: Record, field: u32, slot: usize, value: u32) -> Record {
    Record {
        machine: edited_part(r.machine, field, slot, value),
        stack: edited_stack(r.stack, field, slot, value),
    }
}

// The record with the changes of a list of edits.
fn edited(mut r: Record, edits: &[u32]) -> Record {
    for edit in edits.chunks_exact(3) {
        r = edited_record(r, edit[0], size(edit[1]), edit[2]);
    }
    r
}

// One edit, where it is of the cells.
fn edit_cell(cells: &mut [u32], field: u32, slot: usize, value: u32) {
    if field == 11 && slot < cells.len() {
        cells[slot] = value;
    }
}

// The changes of a list of edits to the cells.
fn edit_cells(cells: &mut [u32], edits: &[u32]) {
    for edit in edits.chunks_exact(3) {
        edit_cell(cells, edit[0], size(edit[1]), edit[2]);
    }
}

// Runs

fn fresh_run(
    q: Asked,
    t: &[u32],
    cells: &mut [u32],
    list: &[u32],
    limit: u32,
) -> Result<Ran, Refusal> {
    if q.reduced {
        return runs::run_reduced(t, q.c1, q.c2, cells, list, limit);
    }
    runs::run_plain(t, cells, limit)
}

fn continued_run(
    q: Asked,
    r: Record,
    t: &[u32],
    cells: &mut [u32],
    list: &[u32],
    limit: u32,
) -> Result<Ran, Refusal> {
    if q.reduced {
        return runs::continue_reduced(r, t, q.c1, q.c2, cells, list, limit);
    }
    runs::continue_plain(r, t, cells, limit)
}

// The first run, as often as asked; the last of them is the one that counts.
fn first_run(
    q: Asked,
    t: &[u32],
    cells: &mut [u32],
    list: &[u32],
    limit: u32,
) -> Result<Ran, Refusal> {
    for _ in 1..q.times {
        let _ = fresh_run(q, t, cells, list, limit);
    }
    fresh_run(q, t, cells, list, limit)
}

// The record that a run starts with: a later one starts with the last one changed by its edits, which change the cells too.
fn started(first: bool, r: Record, cells: &mut [u32], edits: &[u32]) -> Record {
    if first {
        return r;
    }
    edit_cells(cells, edits);
    edited(r, edits)
}

// A run of a case, with its limit.
fn one_run(
    q: Asked,
    first: bool,
    r: Record,
    t: &[u32],
    cells: &mut [u32],
    list: &[u32],
    limit: u32,
) -> Result<Ran, Refusal> {
    if first {
        return first_run(q, t, cells, list, limit);
    }
    continued_run(q, r, t, cells, list, limit)
}

// What to continue with: the record of the run and how many choices it used, or after a refusal the record before it and none.
fn kept_of(answer: Result<Ran, Refusal>, before: Record) -> Kept {
    match answer {
        Ok(ran) => Kept {
            record: ran.record,
            used: ran.used as usize,
        },
        Err(_) => Kept {
            record: before,
            used: 0,
        },
    }
}

// Prints how many cuts leave a run what it is, where that is asked and it was not refused.
fn print_cuts<W: Write>(
    to: &mut W,
    w: Whole,
    t: &[u32],
    list: &[u32],
    before: &[u32],
    after: &[u32],
    spare: &mut [u32],
) {
    if w.asked.cut && w.answered.is_ok() {
        print_part(to, b" cuts ", cuts::cuts(w, t, list, before, after, spare));
    }
}

// The line of a run.
fn print_line<W: Write>(
    to: &mut W,
    w: Whole,
    t: &[u32],
    list: &[u32],
    before: &[u32],
    after: &[u32],
    spare: &mut [u32],
) {
    print_answer(to, w.answered, t, after);
    print_cuts(to, w, t, list, before, after, spare);
    print(to, b"\n");
}

// A run of a case; the cells with which it starts are kept.
fn whole_run(
    q: Asked,
    first: bool,
    r: Record,
    t: &[u32],
    cells: &mut [u32],
    list: &[u32],
    limit: u32,
    edits: &[u32],
    before: &mut [u32],
) -> Whole {
    let start = started(first, r, cells, edits);
    cuts::replace(before, cells);
    let answered = one_run(q, first, start, t, cells, list, limit);
    Whole {
        asked: q,
        first,
        start,
        limit,
        answered,
    }
}

// A run of a case and its line. Two more buffers are lent, as long as the cells.
fn printed_run<W: Write>(
    to: &mut W,
    q: Asked,
    first: bool,
    r: Record,
    t: &[u32],
    cells: &mut [u32],
    list: &[u32],
    limit: u32,
    edits: &[u32],
    before: &mut [u32],
    spare: &mut [u32],
) -> Kept {
    let w = whole_run(q, first, r, t, cells, list, limit, edits, before);
    print_line(to, w, t, list, before, cells, spare);
    kept_of(w.answered, r)
}

// The runs of a case, until its words end; none uses more choices than are left.
fn all_runs<W: Write>(
    to: &mut W,
    q: Asked,
    t: &[u32],
    cells: &mut [u32],
    list: &[u32],
    runs: &[u32],
    before: &mut [u32],
    spare: &mut [u32],
) {
    let mut r = Record::blank();
    let mut left = &list[..];
    let mut rest = &runs[..];
    let mut first = true;
    while 2 <= rest.len() {
        let n = 2 + 3 * size(rest[1]);
        if rest.len() < n {
            return;
        }
        let k = printed_run(
            to,
            q,
            first,
            r,
            t,
            cells,
            left,
            rest[0],
            &rest[2..n],
            before,
            spare,
        );
        r = k.record;
        let used = k.used;
        if left.len() < used {
            return;
        }
        left = &left[used..];
        rest = &rest[n..];
        first = false;
    }
}

// Cases

// The parts of a case: the head, the table, the list and the runs. Whether they fit.
fn run_case<W: Write>(to: &mut W, w: &[u32]) -> bool {
    if w.len() < HEAD {
        return false;
    }
    let cells = size(w[3]);
    if CELLS < cells {
        return false;
    }
    let list = HEAD + size(w[4]);
    let runs = list + size(w[5]);
    if w.len() < runs {
        return false;
    }
    let q = Asked {
        reduced: w[0] == 1,
        c1: w[1],
        c2: w[2],
        times: w[6],
        cut: w[6] == 0,
    };
    let mut lent = [7u32; CELLS];
    let mut before = [0u32; CELLS];
    let mut spare = [0u32; CELLS];
    all_runs(
        to,
        q,
        &w[HEAD..list],
        &mut lent[..cells],
        &w[list..runs],
        &w[runs..],
        &mut before[..cells],
        &mut spare[..cells],
    );
    true
}

// Puts the words of a case into a lent buffer, and runs it.
fn filled_case<W: Write>(to: &mut W, words: &mut [u32], s: &[u8]) -> bool {
    wire::put_words(words, s);
    run_case(to, words)
}

// Runs a case: whether it fits.
fn report<W: Write>(to: &mut W, s: &[u8]) -> bool {
    let n = s.len() / 4;
    if WORDS < n {
        return false;
    }
    let mut words = [0u32; WORDS];
    filled_case(to, &mut words[..n], s)
}

// One case: whether there was one that fits.
fn run<R: Read, W: Write>(from: &mut R, to: &mut W, room: &mut [u8]) -> bool {
    let Some(n) = wire::next_message(from, room) else {
        return false;
    };
    report(to, &room[..n])
}

fn main(rt: HostRuntime) {
    let mut room = [0u8; ROOM];
    let mut from = rt.stdin();
    let mut to = rt.stdout();
    for _ in 0..100000u32 {
        if !run(&mut from, &mut to, &mut room) {
            return;
        }
    }
}
