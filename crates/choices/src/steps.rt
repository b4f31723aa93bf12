// The loop of the choice writer.
ghost use Rattle.runs.specs.CodeSteps.{kept};
ghost use Rattle.choices.specs.CodeSteps.{Begins, WriterWrites};

use crate::marks::hold;
use calls::{DEPTH, map_own};
use evaluators::inputs::Inputs;
use machine::steps::zero;
use machine::{End, Machine, Move, Worked};
use prepared::Frame;
use prepared::own::lay_out;
use recording_rows::recorded_move;
use runs::Ran;
use writing::{after_call, after_return, count_of, stopped, write_numbers};

// The steps of the writer from a fresh record on: what a row comes to is worked out with its numbers, which are written if they all fit; then
// the change is made by the methods of a step, each in an arm of its own, since `step` is quick with one caller only.
pub fn write_steps(
    mut m: Machine,
    mut stack: [u32; 241],
    t: &[u32],
    cells: &mut [u32],
    list: &mut [u32],
    f: Frame,
    limit: u32,
) -> Ran
    requires { Begins t.now f (kept m stack) cells.old }
    ensures { WriterWrites t.now f (kept m stack) cells.old list.old limit result cells.new
        list.new }
{
    let mut own = [0u32; 5256];
    lay_out(t, f, &mut own);
    let mut map = [0u32; 273];
    map_own(&own, &mut map);
    let end = map[0];
    let mut numbers = [0u32; 8192];
    let mut held = [0u8; 16];
    let mut at: usize = 0;
    let mut steps: u32 = 0;
    while (m.row < end) | (0 < stack[DEPTH]) {
        if steps == limit {
            return Ran::at_end(End::OutOfSteps, steps, at, m, stack);
        }
        let inputs = Inputs {
            own: &own,
            cells,
            list: &[], // a plain table takes no choice
            machine: &m,
        };
        let w = recorded_move(&inputs, &held, &mut numbers, stack[DEPTH]);
        let n = count_of(w);
        if list.len() - at < n {
            return Ran::at_end(End::ListFull, steps, at, m, stack);
        }
        at = write_numbers(list, at, &numbers, n);
        let Worked::Moves(change, _) = w else {
            return stopped(w, steps, at, m, stack);
        };
        hold(&own, &mut held, m.count, m.row);
        steps = steps + 1;
        match change {
            Move::Goes => m = m.pass(),
            Move::Puts(a, number, base) => m = m.put(a, number, base),
            Move::Writes(i, v) => {
                cells[i] = v;
                m = m.pass();
            }
            Move::Lays(a, first, len, size, reduced) => {
                zero(cells, first, size);
                m = m.lay(a, first, len, reduced);
            }
            Move::Enters(a, number, row, depth, from, upto) => m = m.enter(
                a, number, row, depth, from, upto,
            ),
            Move::Leaves(a, number, depth, next) => m = m.leave(a, number, depth, next),
            Move::Calls(k, x) => m = after_call(m, &own, &map, &mut stack, k, x),
            Move::Returns(x) => m = after_return(m, &own, &map, &mut stack, x),
        }
    }
    Ran::at_end(End::Done, steps, at, m, stack)
}
