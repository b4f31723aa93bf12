// The run's own copy of a table, and the words of its rows.
ghost use Rattle.std.specs.Prelude.{◌≡◌, ◌+◌, ◌*◌, ◌≤◌, length, get_or, replicate};
ghost use Rattle.std.specs.Prelude.{if◌then◌else◌};
ghost use Rattle.prepared.specs.CodeOwn.{copied, told, Formed};
ghost use Rattle.prepared.specs.Own.{Own, own_words};
ghost use Rattle.prepared.specs.View.{table_for};
ghost use Rattle.kinds.specs.Code.{InSorts};

use crate::Frame;
use crate::copies::copy;
use crate::forms::{form_of, number_of};
use lists::word_or_zero;

// Where what the run is told, the nodes and the rows stand.
pub const HEAD: usize = 128;

pub const NODES: usize = 136;

pub const ROWS: usize = 4232;

// The form of value of each variable, in the last word of its declaration.
fn set_forms(t: &[u32], f: Frame, own: &mut [u32])
    requires { (f.counts.decls ≤ 32) × (128 ≤ length own.old) }
    ensures { Formed t.now f f.counts.decls own.old own.new }
{
    for a in 0..f.counts.decls {
        own[4 * a + 3] = number_of(form_of(t, f, a));
    }
}

// The lines of each sort, at their place.
fn copy_lines(t: &[u32], f: Frame, own: &mut [u32])
    requires { InSorts (table_for t.now f) × (length own.old ≡ own_words) }
    ensures { own.new ≡ copied t.now f own.old }
{
    let decls = f.counts.decls;
    let nodes = f.counts.nodes;
    let rows = f.counts.rows;
    let n = 4 * decls;
    let m = 4 * (decls + nodes);
    copy(own, 0, t, n);
    copy(own, NODES, &t[n..], 4 * nodes);
    copy(own, ROWS, &t[m..], 4 * rows);
}

// What the run is told.
fn tell(f: Frame, own: &mut [u32])
    requires { (length own.old ≡ own_words) × (f.counts.decls ≤ 32) × (f.counts.rows ≤ 256) }
    ensures { own.new ≡ told f own.old }
{
    let decls = f.counts.decls;
    let rows = f.counts.rows;
    own[HEAD + 1] = f.c1;
    own[HEAD + 2] = f.c2;
    own[HEAD + 3] = u32::from(f.classes);
    own[HEAD + 5] = decls as u32;
    own[HEAD + 6] = rows as u32;
}

// The copy of a table, into zeros.
pub fn lay_out(t: &[u32], f: Frame, own: &mut [u32])
    requires { InSorts (table_for t.now f) × (own.old ≡ replicate 5256 0) }
    ensures { Own t.now f own.new }
{
    copy_lines(t, f, own);
    tell(f, own);
    set_forms(t, f, own);
}

// Word i of a row: its kind or an operand.
pub fn row_word(own: &[u32; 5256], row: u32, i: usize) -> u32
    requires { i ≤ 3 }
    ensures { result ≡ get_or own.now (4 * (34 + 1024 + row) + i) 0 }
{
    word_or_zero(own, ROWS + 4 * row as usize + i)
}
