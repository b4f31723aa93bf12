// The steps: each takes the record and hands back the next one. A column that changes is taken out, changed and put back: so nothing of the
// record is found by a computed place and nothing of it is lent here, and the compiler copies that column and no other. Each is small, and
// `step` has one caller, for the same reason. For the loops of our crates above, which see to what is required.
ghost use Rattle.std.specs.Prelude.{◌≡◌, ◌+◌, ◌<◌, ◌≤◌, length, replicate};
ghost use Rattle.std.specs.Prelude.{if◌then◌else◌};
ghost use Rattle.model.specs.Step.{cleared};
ghost use Rattle.calls.specs.CallAndReturn.{Procedures};
ghost use Rattle.machine.specs.View.{own_state};
ghost use Rattle.machine.specs.CodeMoves.{passed, with_value, with_laid, entered, exited, begun, resumed, state_after, Can};

use crate::{Machine, Move};
use calls::{Stood, call, give_back};

// Zeroes all cells.
pub fn zero_all(cells: &mut [u32])
    ensures { cells.new ≡ replicate (length cells.old) 0 }
{
    cells.fill(0);
}

// Zeroes n cells from a place on.
pub fn zero(cells: &mut [u32], from: u32, n: u32)
    requires { from + n ≤ length cells.old }
    ensures { cells.new ≡ cleared from n cells.old }
{
    let first = from as usize;
    let end = first + n as usize;
    zero_all(&mut cells[first..end]);
}

impl Machine {
    // The step of a row that changes nothing in the record: it goes on.
    pub fn pass(mut self) -> Machine
        requires { self.row ≤ 256 }
        ensures { result ≡ passed self }
    {
        self.row = self.row + 1;
        self
    }

    // ... that gives variable a a number and a base.
    pub fn put(mut self, a: usize, number: u32, base: u32) -> Machine
        requires { (self.row ≤ 256) × (a < 32) }
        ensures { result ≡ with_value self a number base }
    {
        let mut numbers = self.numbers;
        numbers[a] = number;
        self.numbers = numbers;
        let mut bases = self.bases;
        bases[a] = base;
        self.bases = bases;
        self.row = self.row + 1;
        self
    }

    // ... that lays a new array after the others, for pointer a.
    pub fn lay(mut self, a: usize, first: u32, len: u32, reduced: bool) -> Machine
        requires { (self.row ≤ 256) × (a < 32) × (self.count < 16) }
        ensures { result ≡ with_laid self a first len reduced }
    {
        let i = self.count as usize;
        let mut firsts = self.firsts;
        firsts[i] = first;
        self.firsts = firsts;
        let mut lengths = self.lengths;
        lengths[i] = len;
        self.lengths = lengths;
        let mut shapes = self.shapes;
        shapes[i] = u8::from(reduced);
        self.shapes = shapes;
        self.count = self.count + 1;
        let mut numbers = self.numbers;
        numbers[a] = 0;
        self.numbers = numbers;
        let mut bases = self.bases;
        bases[a] = self.count;
        self.bases = bases;
        self.row = self.row + 1;
        self
    }

    // Loop entry: of the loop of a row, from a start to an end, inside `depth` open loops; its iterator is variable a.
    pub fn enter(
        mut self,
        a: usize,
        number: u32,
        row: u32,
        depth: u32,
        from: u32,
        upto: u32,
    ) -> Machine
        requires { (a < 32) × (row < 256) × (depth < 8) }
        ensures { result ≡ entered self a number row depth from upto }
    {
        let i = depth as usize;
        let mut numbers = self.numbers;
        numbers[a] = number;
        self.numbers = numbers;
        let mut rows = self.loop_rows;
        rows[i] = row;
        self.loop_rows = rows;
        let mut starts = self.starts;
        starts[i] = from;
        self.starts = starts;
        let mut ends = self.ends;
        ends[i] = upto;
        self.ends = ends;
        self.open = depth + 1;
        self.row = row + 1;
        self
    }

    // A loop that is not entered, or not again: on to the row past it.
    pub fn leave(mut self, a: usize, number: u32, depth: u32, next: u32) -> Machine
        requires { a < 32 }
        ensures { result ≡ exited self a number depth next }
    {
        let mut numbers = self.numbers;
        numbers[a] = number;
        self.numbers = numbers;
        self.open = depth;
        self.row = next;
        self
    }

    // A call: the procedure starts with these numbers, at its first row, with no loop open.
    pub fn begin(mut self, numbers: [u32; 32], next: u32) -> Machine
        ensures { result ≡ begun self numbers next }
    {
        self.numbers = numbers;
        self.open = 0;
        self.row = next;
        self
    }

    // A return: the caller goes on with these numbers and its own loops.
    pub fn resume(
        mut self,
        numbers: [u32; 32],
        rows: [u32; 8],
        starts: [u32; 8],
        ends: [u32; 8],
        back: Stood,
    ) -> Machine
        ensures { result ≡ resumed self numbers rows starts ends back.row back.open }
    {
        self.numbers = numbers;
        self.loop_rows = rows;
        self.starts = starts;
        self.ends = ends;
        self.open = back.open;
        self.row = back.row;
        self
    }

    // The step that a row comes to, with the stack and the cells lent beside the machine.
    pub fn step(
        mut self,
        own: &[u32; 5256],
        map: &[u32; 273],
        stack: &mut [u32; 241],
        cells: &mut [u32],
        change: Move,
    ) -> Machine
        requires { (self.row ≤ 256) × Procedures own.now map.now × Can own.now stack.old self (length cells.old) change }
        ensures { own_state own.now stack.new result cells.new
            ≡ state_after own.now stack.old self cells.old change }
    {
        match change {
            Move::Goes => self.pass(),
            Move::Puts(a, number, base) => self.put(a, number, base),
            Move::Writes(i, v) => {
                cells[i] = v;
                self.pass()
            }
            Move::Lays(a, first, len, size, reduced) => {
                zero(cells, first, size);
                self.lay(a, first, len, reduced)
            }
            Move::Enters(a, number, row, depth, from, upto) => self.enter(
                a, number, row, depth, from, upto,
            ),
            Move::Leaves(a, number, depth, next) => self.leave(a, number, depth, next),
            Move::Calls(k, x) => {
                let mut numbers = self.numbers;
                let rows = self.loop_rows;
                let starts = self.starts;
                let ends = self.ends;
                let next = call(
                    own,
                    map,
                    stack,
                    &mut numbers,
                    self.row,
                    self.open,
                    &rows,
                    &starts,
                    &ends,
                    k,
                    x,
                );
                self.begin(numbers, next)
            }
            Move::Returns(x) => {
                let mut numbers = self.numbers;
                let mut rows = self.loop_rows;
                let mut starts = self.starts;
                let mut ends = self.ends;
                let back = give_back(
                    own,
                    map,
                    stack,
                    &mut numbers,
                    &mut rows,
                    &mut starts,
                    &mut ends,
                    self.row,
                    x,
                );
                self.resume(numbers, rows, starts, ends, back)
            }
        }
    }
}
