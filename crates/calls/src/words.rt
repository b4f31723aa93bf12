// The words of a caller on the stack: its row, how many loops are open, four locals, and the rows, starts and ends of eight loops.
ghost use Rattle.std.specs.Prelude.{◌≡◌, ◌+◌, ◌≤◌, length, drop};
ghost use Rattle.std.proofs.Math.Seq.{paste};
ghost use Rattle.calls.specs.Code.{Sizes, aside, TakenBack};

use prepared::copies::copy;

// n numbers from one place of a list to another place of another.
fn copy_part(list: &mut [u32], at: usize, numbers: &[u32], from: usize, n: usize)
    requires { (at + n ≤ length list.old) × (from + n ≤ length numbers.now) }
    ensures { list.new ≡ paste list.old at (drop from numbers.now) n }
{
    copy(list, at, &numbers[from..], n);
}

// Puts a caller's words from a place on, with so many locals from the first on.
pub(crate) fn put_aside<'a>(
    stack: &mut [u32; 241],
    at: usize,
    row: u32,
    open: u32,
    ns: &[u32; 32],
    first: usize,
    count: usize,
    loop_rows: &'a [u32; 8],
    starts: &'a [u32; 8],
    ends: &'a [u32; 8],
)
    requires { (at + 30 ≤ 240) × (first + count ≤ 32) × (count ≤ 4) }
    ensures { Sizes stack.old ns.now loop_rows.now starts.now ends.now
        × (stack.new ≡ aside stack.old at row «open» ns.now first count loop_rows.now
        starts.now ends.now) }
{
    stack[at] = row;
    stack[at + 1] = open;
    copy_part(stack, at + 2, ns, first, count);
    copy(stack, at + 6, loop_rows, 8);
    copy(stack, at + 14, starts, 8);
    copy(stack, at + 22, ends, 8);
}

// Takes the loops of the caller's words back.
pub(crate) fn take_back(
    stack: &[u32; 241],
    at: usize,
    loop_rows: &mut [u32; 8],
    starts: &mut [u32; 8],
    ends: &mut [u32; 8],
)
    requires { at + 30 ≤ 240 }
    ensures { TakenBack stack.now at loop_rows.new starts.new ends.new }
{
    copy_part(loop_rows, 0, stack, at + 6, 8);
    copy_part(starts, 0, stack, at + 14, 8);
    copy_part(ends, 0, stack, at + 22, 8);
}
