// How many lines each sort has, counted in one pass.
ghost use Rattle.std.specs.Prelude.{◌≡◌, ◌≤◌, ◌/◌, length};
ghost use Rattle.table.specs.Code.{counts_of};

use kinds::Counts;

// The counts of a table's whole lines. Public for the machines.
pub fn counts_of(words: &[u32]) -> Counts
    ensures value { result ≡ counts_of words.now }
    ensures decls_in_bounds { (result.decls ≤ length words.now / 4) × (result.nodes ≤ length words.now / 4) }
{
    let lines = words.len() / 4;
    let mut decls: usize = 0;
    let mut nodes: usize = 0;
    let mut rows: usize = 0;
    for i in 0..lines {
        let kind = words[4 * i];
        decls += usize::from(kind < 16);
        nodes += usize::from((16 <= kind) & (kind < 32));
        rows += usize::from(32 <= kind);
    }
    Counts { decls, nodes, rows }
}
