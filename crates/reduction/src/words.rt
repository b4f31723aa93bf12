// The reduction of a table, word by word into a lent table.
ghost use Rattle.std.specs.Prelude.{◌≡◌, ◌<◌, length};
ghost use Rattle.model.specs.Table.{marked};
ghost use Rattle.model.specs.Reduce.{reduced_kind, reduced_word, reduce};

use kinds::is_marked;
use lists::word_or_zero;

// The kind that a line of this kind becomes, whose operand a is i.
fn reduced_kind(words: &[u32], kind: u32, i: u32) -> u32
    ensures { result ≡ reduced_kind (marked words.now 2 i) (marked words.now 3 i) kind }
{
    match kind {
        16 if is_marked(words, 2, i) => 27,
        19 => 28,
        26 => 29,
        34 => 40,
        37 if is_marked(words, 3, i) => 41,
        38 if is_marked(words, 2, i) => 42,
        _ => kind,
    }
}

// Word i of the reduction.
fn reduced_word(words: &[u32], i: usize) -> u32
    requires { i < length words.now }
    ensures { result ≡ reduced_word words.now i }
{
    if i % 4 == 0 {
        return reduced_kind(words, words[i], word_or_zero(words, i + 1));
    }
    words[i]
}

// The reduction of the words, into a lent table as long as they are.
pub(crate) fn reduce_words(words: &[u32], out: &mut [u32])
    requires { length out.old ≡ length words.now }
    ensures { out.new ≡ reduce words.now }
{
    for (i, word) in out.iter_mut().enumerate() {
        *word = reduced_word(words, i);
    }
}
