// Calls and returns, on the words that are lent: a caller is put aside on the stack and taken back, and the locals are handed over.
// All of it is for our crates above, which see to what is required here.
#![tactic(auto)]

mod locals; // locals.rt: the locals of what is at work
mod words; // words.rt: the words of a caller

ghost use Rattle.std.specs.Prelude.{◌≡◌, ◌+◌, ◌≤◌, get_or};
ghost use Rattle.procedures.specs.Map.{Mapped};
ghost use Rattle.prepared.specs.Own.{rows_of, own_table};
ghost use Rattle.calls.specs.CallAndReturn.{Procedures, CanCall, Called, CanReturn, Returned};

use kinds::Counts;
use locals::{first_local, hand_over, local_count, put_back};
use prepared::own::row_word;
use procedures::{PLACES, map_procedures};
use words::{put_aside, take_back};

// The most callers, and the most locals and open loops of each.
pub const CALLERS: usize = 8;

pub const LOCALS: usize = 4;

pub const LOOPS: usize = 8;

// The words of a caller: its row, how many loops are open, its locals, and three words for each loop.
pub const CALLER: usize = 2 + LOCALS + 3 * LOOPS;

// Which word of a stack has the number of callers, the one after all of theirs; and how many words a stack has.
pub const DEPTH: usize = CALLERS * CALLER;

pub const STACK: usize = DEPTH + 1;

// Where a run stands after a return: its row, and how many loops are open.
#[derive(Clone, Copy)]
pub struct Stood {
    pub row: u32,
    pub open: u32,
}

// The procedures of a run's own copy of its table, for the loops of a run and of the choice writer.
pub fn map_own(own: &[u32; 5256], map: &mut [u32; 273])
    requires { rows_of own.now ≤ 256 }
    ensures { Mapped (own_table own.now) map.new }
{
    let counts = Counts {
        decls: 34,
        nodes: 1024,
        rows: own[134] as usize,
    };
    map_procedures(own, counts, map);
}

// The first row of what a row belongs to.
fn home_at(map: &[u32; 273], row: u32) -> u32
    requires { row ≤ 256 }
    ensures { result ≡ get_or map.now (16 + row) 0 }
{
    map[PLACES + row as usize]
}

// A call of procedure k with a number, from a row with so many loops open: the caller is put aside, the locals are handed over, and the
// procedure's first row is the answer (rule 2.40).
pub fn call<'a>(
    own: &[u32; 5256],
    map: &[u32; 273],
    stack: &mut [u32; 241],
    ns: &mut [u32; 32],
    row: u32,
    open: u32,
    loop_rows: &'a [u32; 8],
    starts: &'a [u32; 8],
    ends: &'a [u32; 8],
    k: u32,
    x: u32,
) -> u32
    requires { Procedures own.now map.now × CanCall own.now stack.old row k }
    ensures { Called own.now ns.old stack.old row «open» loop_rows.now starts.now
        ends.now k x result ns.new stack.new }
{
    let next = map[k as usize] + 1;
    let from = home_at(map, row);
    let depth = stack[DEPTH];
    let at = CALLER * depth as usize;
    put_aside(
        stack,
        at,
        row,
        open,
        ns,
        first_local(own, from),
        local_count(own, from),
        loop_rows,
        starts,
        ends,
    );
    stack[DEPTH] = depth + 1;
    hand_over(own, ns, from, home_at(map, next), &[x, 0, 0, 0]);
    next
}

// A return of a number to the last caller, from a row: its locals and its open loops come back, then the variable of its 45 gets the number
// (rule 2.42).
pub fn give_back(
    own: &[u32; 5256],
    map: &[u32; 273],
    stack: &mut [u32; 241],
    ns: &mut [u32; 32],
    loop_rows: &mut [u32; 8],
    starts: &mut [u32; 8],
    ends: &mut [u32; 8],
    row: u32,
    x: u32,
) -> Stood
    requires { Procedures own.now map.now × CanReturn own.now stack.old row }
    ensures { Returned own.now ns.old stack.old row x result ns.new loop_rows.new
        starts.new ends.new stack.new }
{
    let depth = stack[DEPTH] - 1;
    let at = CALLER * depth as usize;
    let back = stack[at];
    let open = stack[at + 1];
    let locals = [stack[at + 2], stack[at + 3], stack[at + 4], stack[at + 5]];
    let c = row_word(own, back, 3) as usize;
    put_back(
        own,
        ns,
        home_at(map, row),
        home_at(map, back),
        &locals,
        c,
        x,
    );
    take_back(stack, at, loop_rows, starts, ends);
    stack[DEPTH] = depth;
    let next = back + 1;
    Stood { row: next, open }
}
