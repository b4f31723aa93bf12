// Cuts: a run in two or three parts against the whole one. Each part goes on with the record and the cells of the one before it, under the
// choices that were left (rule 2.45).
use crate::{Asked, continued_run, fresh_run, record_check};
use machine::{End, Record};
use runs::Ran;
use table::Refusal;

// Where the last cut is at most here, all pairs of cuts are tried; else each cut with one half-way to the last.
const ALL_PAIRS: u32 = 9;

// A run to cut: the machine, whether it is fresh, the record that it starts with, its limit, and what it answered.
#[derive(Clone, Copy)]
pub(crate) struct Whole {
    pub(crate) asked: Asked,
    pub(crate) first: bool,
    pub(crate) start: Record,
    pub(crate) limit: u32,
    pub(crate) answered: Result<Ran, Refusal>,
}

// A run in parts: what the last of them answered, and the steps and choices of all.
#[derive(Clone, Copy)]
struct Parts {
    last: Result<Ran, Refusal>,
    steps: u64,
    used: u64,
}

// Words put in place of as many others.
pub(crate) fn replace(words: &mut [u32], by: &[u32]) {
    if words.len() == by.len() {
        words.copy_from_slice(by);
    }
}

// Parts

// So many steps and choices before it.
fn with_part(last: Result<Ran, Refusal>, steps: u64, used: u64) -> Parts {
    match last {
        Ok(ran) => Parts {
            last,
            steps: steps.saturating_add(u64::from(ran.steps)),
            used: used.saturating_add(ran.used),
        },
        Err(_) => Parts { last, steps, used },
    }
}

// The first part, of so many steps, in the cells with which the run starts.
fn first_part(
    w: Whole,
    t: &[u32],
    cells: &mut [u32],
    list: &[u32],
    before: &[u32],
    steps: u32,
) -> Parts {
    replace(cells, before);
    let q = w.asked;
    if w.first {
        return with_part(fresh_run(q, t, cells, list, steps), 0, 0);
    }
    with_part(continued_run(q, w.start, t, cells, list, steps), 0, 0)
}

// One part more, of so many steps, where the last is unfinished.
fn next_part(w: Whole, p: Parts, t: &[u32], cells: &mut [u32], list: &[u32], steps: u32) -> Parts {
    let (Ok(ran), Some(left)) = (p.last, list.get(p.used as usize..)) else {
        return p;
    };
    if ran.end != End::OutOfSteps {
        return p;
    }
    let next = continued_run(w.asked, ran.record, t, cells, left, steps);
    with_part(next, p.steps, p.used)
}

// Comparison

// Whether the parts came to what the whole run did, but for the cells; records are compared by their check numbers.
fn same_run(p: Parts, whole: Result<Ran, Refusal>, t: &[u32]) -> bool {
    let (Ok(x), Ok(y)) = (p.last, whole) else {
        return false;
    };
    p.steps == u64::from(y.steps)
        && p.used == y.used
        && x.end == y.end
        && record_check(x.record, t) == record_check(y.record, t)
}

// Cuts

// 1 if a run cut after m steps is the whole one, else 0. The cells are those at its start, those after the whole run, and some to run in.
fn cut_once(
    w: Whole,
    t: &[u32],
    list: &[u32],
    before: &[u32],
    after: &[u32],
    cells: &mut [u32],
    m: u32,
) -> u64 {
    let one = first_part(w, t, cells, list, before, m);
    let two = next_part(w, one, t, cells, list, w.limit.saturating_sub(m));
    u64::from(same_run(two, w.answered, t) && &*cells == after)
}

// The same of one that is cut again after n more.
fn cut_twice(
    w: Whole,
    t: &[u32],
    list: &[u32],
    before: &[u32],
    after: &[u32],
    cells: &mut [u32],
    m: u32,
    n: u32,
) -> u64 {
    let one = first_part(w, t, cells, list, before, m);
    let two = next_part(w, one, t, cells, list, n);
    let rest = w.limit.saturating_sub(m).saturating_sub(n);
    let three = next_part(w, two, t, cells, list, rest);
    u64::from(same_run(three, w.answered, t) && &*cells == after)
}

// How many runs that are cut after m steps, and again after each number of further steps up to `most`, are the whole one.
fn all_second_cuts(
    w: Whole,
    t: &[u32],
    list: &[u32],
    before: &[u32],
    after: &[u32],
    cells: &mut [u32],
    m: u32,
    most: u32,
) -> u64 {
    let mut same: u64 = 0;
    for n in 0..=most.min(ALL_PAIRS) {
        same = same.saturating_add(cut_twice(w, t, list, before, after, cells, m, n));
    }
    same
}

// The same of second cuts up to the last one, or of one half-way to it.
fn second_cuts(
    w: Whole,
    t: &[u32],
    list: &[u32],
    before: &[u32],
    after: &[u32],
    cells: &mut [u32],
    m: u32,
    last: u32,
) -> u64 {
    let most = last.saturating_sub(m);
    if ALL_PAIRS < last {
        return cut_twice(w, t, list, before, after, cells, m, most / 2);
    }
    all_second_cuts(w, t, list, before, after, cells, m, most)
}

// How many cuts after m steps, once or twice, leave the run the whole one.
fn cuts_at(
    w: Whole,
    t: &[u32],
    list: &[u32],
    before: &[u32],
    after: &[u32],
    cells: &mut [u32],
    m: u32,
    last: u32,
) -> u64 {
    let once = cut_once(w, t, list, before, after, cells, m);
    once.saturating_add(second_cuts(w, t, list, before, after, cells, m, last))
}

// The last cut: one step after the run's end, or at its limit; a run that was refused has none.
fn last_cut(w: Whole) -> u32 {
    w.answered
        .map_or(0, |ran| ran.steps.saturating_add(1).min(w.limit))
}

// How many cuts of a run leave it the whole one: after each number of steps up to the last cut.
pub(crate) fn cuts(
    w: Whole,
    t: &[u32],
    list: &[u32],
    before: &[u32],
    after: &[u32],
    cells: &mut [u32],
) -> u64 {
    let last = last_cut(w);
    let mut same: u64 = 0;
    for m in 0..=last {
        same = same.saturating_add(cuts_at(w, t, list, before, after, cells, m, last));
    }
    same
}
