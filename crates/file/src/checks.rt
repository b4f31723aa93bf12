// The checks of a file: its length, the check of each block, the numbers and the zero fill of each block.
ghost use Rattle.std.specs.Prelude.{◌≡◌, ◌+◌, ◌*◌, ◌^◌, ◌<◌, ◌≤◌, length, ◌==◌};
ghost use Rattle.file.specs.Layout.{check_of};
ghost use Rattle.file.specs.Read.{read_of};
ghost use Rattle.file.specs.Reading.{word, blocks, lines_in_all, wrong_length, wrong_check, wrong_count, unused_zero, wrong_block, read_answer};

use crate::layout::{
    BLOCK, CHECK, COUNT, FILE_BYTES, LINE_WORDS, NUMBER, TABLE_LINES, TABLE_WORDS, TOTAL,
};
use crate::word::word_at;
use lists::first_where;
use table::{Check, Refusal};

fn wrong_length(n: usize) -> bool
    ensures { result ≡ wrong_length n }
{
    n % BLOCK != 0 || FILE_BYTES < n
}

// The check that block k must have: its first 127 words, folded by a sum that wraps, which is a form that this project asks for.
#[tactic(auto, using(lists::proofs::TabLaws::sum_more), unfolding(lists::specs::Tab::sum))]
fn block_check(bytes: &[u8], k: usize) -> u32
    requires { k < blocks bytes.now }
    ensures { result ≡ check_of (word bytes.now k) }
{
    let mut sum: u32 = 0;
    for r in 0..127 {
        sum = sum.wrapping_add(word_at(bytes, BLOCK * k + 4 * r));
    }
    sum
}

fn wrong_check(bytes: &[u8], k: usize) -> bool
    requires { k < blocks bytes.now }
    ensures { result ≡ wrong_check bytes.now k }
{
    block_check(bytes, k) != word_at(bytes, BLOCK * k + CHECK)
}

// The sum of the counts as they stand, which may be far above what a u32 holds.
#[tactic(auto, using(lists::proofs::TabLaws::sum_more), unfolding(lists::specs::Tab::sum))]
fn lines_in_all(bytes: &[u8]) -> u64
    requires { length bytes.now ≤ 22016 }
    ensures { result ≡ lines_in_all bytes.now }
{
    let mut total: u64 = 0;
    for k in 0..bytes.len() / BLOCK {
        total += u64::from(word_at(bytes, BLOCK * k + COUNT));
    }
    total
}

fn wrong_count(c: u32, last: bool) -> bool
    ensures { result ≡ wrong_count c last }
{
    c < 1 || 31 < c || !last && c != 31
}

// Whether the words of block k past its c lines are zero.
fn unused_zero(bytes: &[u8], k: usize, c: u32) -> bool
    requires { k < blocks bytes.now }
    ensures { result ≡ unused_zero bytes.now k c }
{
    (4 * c as usize..LINE_WORDS).all(|r| word_at(bytes, BLOCK * k + 4 * r) == 0)
}

#[tactic(auto, unfolding(crate::specs::Reading::wrong_block))]
fn wrong_block(bytes: &[u8], n: u64, k: usize) -> bool
    requires { k < blocks bytes.now }
    ensures { result ≡ wrong_block bytes.now n k }
{
    let c = word_at(bytes, BLOCK * k + COUNT);
    word_at(bytes, BLOCK * k + NUMBER) as usize != k
        || wrong_count(c, k + 1 == bytes.len() / BLOCK)
        || u64::from(word_at(bytes, BLOCK * k + TOTAL)) != n
        || TABLE_LINES < n
        || !unused_zero(bytes, k, c)
}

// The answer for a buffer of so many words.
pub(crate) fn answer(bytes: &[u8], room: usize) -> Result<u32, Refusal>
    ensures { read_of result ≡ read_answer bytes.now room }
{
    if wrong_length(bytes.len()) {
        return Err(Refusal {
            check: Check::FileLength,
            place: 0,
        });
    }
    let blocks = bytes.len() / BLOCK;
    Check::BlockSum.broken_at(first_where(blocks, |k| wrong_check(bytes, k)))?;
    let n = lines_in_all(bytes);
    Check::BlockLayout.broken_at(first_where(blocks, |k| wrong_block(bytes, n, k)))?;
    if room != TABLE_WORDS {
        return Err(Refusal {
            check: Check::BufferSize,
            place: 0,
        });
    }
    Ok(n as u32)
}
