// The procedures of a table: the map by which a machine finds them, and check 17. All of it is for our crates above.
#![tactic(auto)]

ghost use Rattle.std.specs.Prelude.{◌≡◌, ◌+◌, ◌*◌, ◌/◌, ◌<◌, ◌≤◌, length};
ghost use Rattle.lists.specs.First.{first};
ghost use Rattle.kinds.specs.Code.{table_by, table_in, InSorts, There};
ghost use Rattle.procedures.specs.Map.{Mapped, map_size};
ghost use Rattle.procedures.specs.Misplaced.{breaks17};

use crate::uses::Uses;
use kinds::{Counts, Lines, home_after, opens_procedure};

mod map; // map.rt: the map, word by word
pub mod owners; // owners.rt: whose local each variable is, for our crates above
mod uses; // uses.rt: whose locals a line uses
mod rows; // rows.rt: check 17, row by row

// How many words of a map say where procedures open; those of the rows stand after them.
pub const PLACES: usize = 16;

// Where the first sixteen procedures open, in words 0 to 15, the row count where there is none; and in word 16 + r the first row of what row r
// belongs to, the row past the last among them. One pass over the rows. Who calls this has words and counts apart, so they are two parameters.
pub fn map_procedures(words: &[u32], counts: Counts, map: &mut [u32])
    requires map_len { (length map.old ≡ map_size) × (counts.decls ≤ 34) × (counts.nodes ≤ 1024) × (counts.rows ≤ 256) }
    requires rows_in_bounds { 4 * (counts.decls + counts.nodes + counts.rows) ≤ length words.now }
    ensures { Mapped (table_by words.now counts) map.new }
{
    map::clear_openings(map, counts.rows);
    let mut home: usize = 0;
    let mut opened: usize = 0;
    for row in 0..counts.rows {
        map[PLACES + row] = home as u32;
        let opens = opens_procedure(words[4 * (counts.decls + counts.nodes + row)]);
        map::note_opening(map, opens, opened, row);
        home = home_after(opens, row, home);
        opened += usize::from(opens);
    }
    map[PLACES + counts.rows] = home as u32;
}

// 17: the first line that breaks it, of a table that passes 4 to 8. A pass over the rows for the owners of variables, one over the nodes for what
// they use, and two over the rows: how many procedures there are, and which row breaks a rule.
pub fn first_misplaced(lines: Lines) -> Option<usize>
    requires { InSorts (table_in lines) × There (table_in lines) }
    ensures { result ≡ first (breaks17 (table_in lines.entry)) 0 (length lines.entry.words.now / 4) }
{
    let owners = owners::owners_of(lines.words, lines.counts);
    let mut uses = [Uses::Globals; 1024];
    uses::fill_uses(lines, &owners, &mut uses);
    rows::first_row(lines, &owners, &uses)
}
