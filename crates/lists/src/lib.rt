// What the layers share of code: the answer of a search, and a word of a list that has 0 past its end.
#![tactic(auto)]

ghost use Rattle.std.specs.Prelude.{◌≡◌, ℕ, Bool, ◌<◌, get_or};
ghost use Rattle.lists.specs.First.{first};

// Word i, or 0 past the end.
pub fn word_or_zero(words: &[u32], i: usize) -> u32
    ensures { result ≡ get_or words.now i 0 }
{
    words.get(i).copied().unwrap_or(0)
}

// The first of the numbers below n at which a test holds. For our crates above: all that is required is that the closure may be called for each
// number below n.
pub fn first_where<F: Fn(usize) -> bool>(n: usize, holds: F) -> Option<usize>
    requires { (i : ℕ) → i < n → F.pre holds i }
    ensures { (test : ℕ → Bool) → ((i : ℕ) (b : Bool) → i < n → F.post holds i b → b ≡ test i) → result ≡ first test 0 n }
{
    for i in 0..n {
        if holds(i) {
            return Some(i);
        }
    }
    None
}
