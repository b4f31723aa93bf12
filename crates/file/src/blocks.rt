// The blocks of a table's file, each word written once, the check folded on the way.
ghost use Rattle.std.specs.Prelude.{◌≡◌, ◌+◌, ◌*◌, ◌<◌, ◌≤◌, length, take};
ghost use Rattle.lists.specs.Tab.{tab};
ghost use Rattle.file.specs.Layout.{lines_held, body_word, file_byte};

use crate::layout::{BLOCK, CHECK, LINE_WORDS};
use crate::word::put_word;
use lists::word_or_zero;

// The lines of block k in a file of n lines.
fn lines_held(n: usize, k: usize) -> u32
    requires { k < 43 }
    ensures { result ≡ lines_held n k }
{
    n.saturating_sub(31 * k).min(31) as u32
}

// Word r of block k, the check left out.
#[tactic(auto, unfolding(crate::specs::Layout::body_word))]
fn body_word(ws: &[u32], k: usize, r: usize) -> u32
    requires { (length ws.now ≤ 5248) × (k < 43) × (r < 127) }
    ensures { result ≡ body_word ws.now k r }
{
    if r < LINE_WORDS {
        return word_or_zero(ws, LINE_WORDS * k + r);
    }
    if r == 124 {
        return k as u32;
    }
    if r == 125 {
        return lines_held(ws.len() / 4, k);
    }
    (ws.len() / 4) as u32
}

// Block k, after the blocks before it.
pub(crate) fn put_block(ws: &[u32], out: &mut [u8], k: usize)
    requires ws_len_bound { (length ws.now ≤ 5248) × (k < 43) × (length out.old ≡ 22016) }
    requires out_value { take (512 * k) out.old ≡ tab (512 * k) (file_byte ws.now) }
    ensures { (length out.new ≡ 22016) × (take (512 * k + 512) out.new ≡ tab (512 * k + 512) (file_byte ws.now)) }
{
    let mut sum: u32 = 0;
    for r in 0..127 {
        let w = body_word(ws, k, r);
        put_word(out, BLOCK * k + 4 * r, w);
        sum = sum.wrapping_add(w);
    }
    put_word(out, BLOCK * k + CHECK, sum);
}
