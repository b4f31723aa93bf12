// Numbers copied into a lent list.
ghost use Rattle.std.specs.Prelude.{◌≡◌, ◌+◌, ◌≤◌, length};
ghost use Rattle.std.proofs.Math.Seq.{paste};

// The first n of the numbers, from a place of the list on. For the crates above, which see to what is required here.
pub fn copy(list: &mut [u32], at: usize, numbers: &[u32], n: usize)
    requires { (at + n ≤ length list.old) × (n ≤ length numbers.now) }
    ensures { list.new ≡ paste list.old at numbers.now n }
{
    // A loop: `copy_from_slice` keeps in memory what it copies from, and a step of a run then copies the record's loops several times more.
    for i in 0..n {
        list[at + i] = numbers[i];
    }
}
