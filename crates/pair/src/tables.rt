// The two runs of a file's table.
ghost use Rattle.std.specs.Prelude.{◌≡◌, ◌≤◌, length};
ghost use Rattle.model.specs.Class.{pair};
ghost use Rattle.table.specs.Verdict.Verdict.{Passes};
ghost use Rattle.table.specs.Checks.{table_check};
ghost use Rattle.model.specs.State.MachineKind.{plain};
ghost use Rattle.pair.specs.Pairs.{said_of, table_said, file_said};
ghost use Rattle.pair.specs.CodeLines.{PlainOf};

use crate::lines::{TABLE_WORDS, pair_line, plain_line};
use crate::{Line, Paired};
use choices::write_choices;
use file::read_file;
use machine::{End, Machine};
use runs::Ran;
use table::Refusal;

// The room of the choice list.
const ROOM: usize = 8192;

// The plain run's line: the writer's own run is the plain one, unless its list was full.
fn plain_of(t: &[u32], ran: Ran, limit: u32) -> Line
    requires { table_check plain t.now ≡ Passes }
    ensures { PlainOf t.now limit ran result }
{
    match ran.end {
        End::ListFull => plain_line(t, limit),
        end => Line {
            end,
            row: ran.record.machine.row,
            steps: ran.steps,
            used: 0,
        },
    }
}

// Both runs of a table: the writer makes the checks, and the reduced run has the numbers that it counted.
fn run_table(t: &[u32], c1: u32, c2: u32, limit: u32) -> Result<Paired, Refusal>
    requires { length t.now ≤ 5248 }
    ensures { said_of result ≡ table_said (pair c1 c2) limit t.now }
{
    let mut cells = [0u32; Machine::PLAIN_CELLS];
    let mut list = [0u32; ROOM];
    let ran = write_choices(t, c1, c2, &mut cells, &mut list, limit)?;
    let count = ran.used as usize;
    let plain = plain_of(t, ran, limit);
    let pair = pair_line(t, c1, c2, &list[..count], limit);
    Ok(Paired { plain, pair })
}

// Both runs of the table that a file holds.
pub(crate) fn run_file(file: &[u8], c1: u32, c2: u32, limit: u32) -> Result<Paired, Refusal>
    ensures { said_of result ≡ file_said (pair c1 c2) limit file.now }
{
    let mut words = [0u32; TABLE_WORDS];
    let lines = read_file(file, &mut words)?;
    let end = 4 * lines as usize;
    run_table(&words[..end], c1, c2, limit)
}
