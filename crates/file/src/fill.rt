// The table's words, taken from a file that passed its checks into the words lent.
ghost use Rattle.std.specs.Prelude.{◌≡◌, ◌+◌, ◌*◌, ◌<◌, ◌≤◌, length, take};
ghost use Rattle.lists.specs.Tab.{tab, padded};
ghost use Rattle.file.specs.Reading.{blocks, table_word, table_words};

use crate::layout::{BLOCK, LINE_WORDS};
use crate::word::word_at;

// The words of block k, up to word `end` of the table.
fn fill_block(bytes: &[u8], words: &mut [u32], k: usize, end: usize)
    requires k_bound { (k < blocks bytes.now) × (124 * k ≤ end) × (end ≤ 124 * k + 124) × (end ≤ length words.old) }
    requires words_value { take (124 * k) words.old ≡ tab (124 * k) (table_word bytes.now) }
    ensures { (length words.new ≡ length words.old) × (take end words.new ≡ tab end (table_word bytes.now)) }
{
    let start = LINE_WORDS * k;
    for i in start..end {
        words[i] = word_at(bytes, BLOCK * k + 4 * (i - start));
    }
}

// The first n words, block by block.
fn fill_words(bytes: &[u8], words: &mut [u32], n: usize)
    requires { (n ≤ 124 * blocks bytes.now) × (n ≤ length words.old) }
    ensures { (length words.new ≡ length words.old) × (take n words.new ≡ tab n (table_word bytes.now)) }
{
    for k in 0..n.div_ceil(LINE_WORDS) {
        fill_block(bytes, words, k, n.min(LINE_WORDS * (k + 1)));
    }
}

// The n lines of the table, the rest zero.
pub(crate) fn fill(bytes: &[u8], words: &mut [u32], n: usize)
    requires { (n ≤ 31 * blocks bytes.now) × (n ≤ 1312) × (length words.old ≡ 5248) }
    ensures { words.new ≡ padded 5248 (table_words bytes.now n) }
{
    fill_words(bytes, words, 4 * n);
    words[4 * n..].fill(0);
}
