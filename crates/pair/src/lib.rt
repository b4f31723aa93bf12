// A pair of runs from one input: the plain run of a table, and the run of its reduction under the choices that the choice writer wrote.
#![tactic(auto)]

mod lines;
mod tables;

ghost use Rattle.std.specs.Prelude.{◌≡◌};
ghost use Rattle.pair.specs.Pairs.{said_of, pair_said};

use file::word::word_at;
use machine::End;
use table::{Check, Refusal};
use tables::run_file;

// What a line of output says of a run: its end, where it stands, the steps and the choices used.
#[derive(Clone, Copy)]
pub struct Line {
    pub end: End,
    pub row: u32,
    pub steps: u32,
    pub used: u64,
}

// The lines of both runs of an input.
#[derive(Clone, Copy)]
pub struct Paired {
    pub plain: Line,
    pub pair: Line,
}

// Both runs of an input: the pair and the limit of steps, three words, and then a file.
pub fn pair_run(input: &[u8]) -> Result<Paired, Refusal>
    ensures { said_of result ≡ pair_said input.now }
{
    if input.len() < 12 {
        return Err(Refusal::of_whole(Check::FileLength));
    }
    let c1 = word_at(input, 0);
    let c2 = word_at(input, 4);
    let limit = word_at(input, 8);
    run_file(&input[12..], c1, c2, limit)
}
