// Whose local each variable is, by the first 43 that lists it: a number for each variable, the first row of its procedure, or 0 for a global.
ghost use Rattle.std.specs.Prelude.{◌≡◌, ◌+◌, ◌*◌, ◌<◌, ◌≤◌, length};
ghost use Rattle.kinds.specs.Code.{table_by};
ghost use Rattle.procedures.specs.Code.{claimed, Claimed, Owners};

use kinds::{Counts, opens_procedure};

// A variable's number after a 43 that lists it, or does not: an earlier one's stays.
fn claimed_by(kept: u32, listed: bool, first: u32) -> u32
    ensures { result ≡ claimed kept listed first }
{
    if kept != 0 {
        return kept;
    }
    if listed { first } else { 0 }
}

// The variables that a 43 lists, `count` from a on in whole numbers, become locals of the procedure with this first row.
fn claim(owners: &mut [u32], a: u32, count: u32, first: u32)
    requires { length owners.old ≡ 32 }
    ensures { Claimed owners.old owners.new a count first }
{
    let from = a as usize;
    let end = from + count as usize;
    for v in 0..32 {
        owners[v] = claimed_by(owners[v], (from <= v) & (v < end), first);
    }
}

// The owners of all variables, in one pass over the rows. For our crates above, which have words and counts apart.
pub fn owners_of(words: &[u32], counts: Counts) -> [u32; 32]
    requires { (length words.now ≡ 4 * (counts.decls + counts.nodes + counts.rows)) × (counts.rows ≤ 256) }
    ensures { Owners (table_by words.now counts) result }
{
    let mut owners = [0u32; 32];
    for row in 0..counts.rows {
        let w = 4 * (counts.decls + counts.nodes + row);
        if opens_procedure(words[w]) {
            claim(&mut owners, words[w + 1], words[w + 2], row as u32 + 1);
        }
    }
    owners
}
