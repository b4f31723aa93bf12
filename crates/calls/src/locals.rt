// The locals of main or of a procedure, which is named by its first row.
ghost use Rattle.std.specs.Prelude.{◌≡◌, ◌<◌, ◌≤◌, length};
ghost use Rattle.prepared.specs.Own.{decls_of};
ghost use Rattle.calls.specs.CallAndReturn.{LocalsWithin};
ghost use Rattle.calls.specs.Code.{locals_in, handed, PutBack};

use prepared::copies::copy;
use prepared::own::row_word;

// The first local, and how many there are; main, whose first row is 0, has none (rule 1.21).
pub(crate) fn first_local(own: &[u32; 5256], home: u32) -> usize
    ensures { result ≡ (locals_in own.now home).first }
{
    if home == 0 {
        return 0;
    }
    row_word(own, home - 1, 1) as usize
}

pub(crate) fn local_count(own: &[u32; 5256], home: u32) -> usize
    ensures { result ≡ (locals_in own.now home).count }
{
    if home == 0 {
        return 0;
    }
    row_word(own, home - 1, 2) as usize
}

// The locals of the first become 0, then those of the second get numbers.
pub(crate) fn hand_over(own: &[u32; 5256], ns: &mut [u32; 32], from: u32, upon: u32, xs: &[u32; 4])
    requires { (decls_of own.now ≤ 32) × LocalsWithin own.now (locals_in own.now from) × LocalsWithin own.now (locals_in own.now upon) }
    ensures { (length ns.old ≡ 32) × (ns.new ≡ handed own.now ns.old from upon xs.now) }
{
    copy(ns, first_local(own, from), &[0; 4], local_count(own, from));
    copy(ns, first_local(own, upon), xs, local_count(own, upon));
}

// The locals are handed over, then variable c gets the number; it may be one of them (rule 2.42).
pub(crate) fn put_back(
    own: &[u32; 5256],
    ns: &mut [u32; 32],
    from: u32,
    upon: u32,
    xs: &[u32; 4],
    c: usize,
    x: u32,
)
    requires own_bound { (decls_of own.now ≤ 32) × LocalsWithin own.now (locals_in own.now from) × LocalsWithin own.now (locals_in own.now upon) }
    requires c_bound { c < 32 }
    ensures { PutBack own.now ns.old from upon xs.now c x ns.new }
{
    hand_over(own, ns, from, upon, xs);
    ns[c] = x;
}
