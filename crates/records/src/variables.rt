// Check 15, of the variables: each holds what its declaration says, and a local of what is not at work is 0.
ghost use Rattle.std.specs.Prelude.{◌≡◌, List, ℕ, ◌≤◌};
ghost use Rattle.model.specs.Class.{candidate, class_held, pair};
ghost use Rattle.model.specs.Table.{home};
ghost use Rattle.model.specs.State.{Caller};
ghost use Rattle.model.specs.Accepted.{Accepted};
ghost use Rattle.kinds.specs.Code.{InSorts};
ghost use Rattle.prepared.specs.View.{kind_of, places, table_for};
ghost use Rattle.records.specs.Record.{variables_fit, locals_idle};
ghost use Rattle.records.specs.CodeRecord.{state_in, fits_by_form, idle_by};

use machine::Machine;
use model::class_of;
use prepared::forms::form_of;
use prepared::{Form, Frame};
use procedures::owners::owners_of;

// The one number that decides whether a class holds a number: 0, a place, or the number after a place.
fn candidate_of(c1: u32, c2: u32, k: u32) -> u64
    ensures { result ≡ candidate 0 (pair c1 c2) k }
{
    match k {
        0 => 0,
        1 => u64::from(c1),
        2 => u64::from(c1) + 1,
        3 => u64::from(c2),
        _ => u64::from(c2) + 1,
    }
}

// A class holds a number where its candidate is a number of 32 bits and is in it (rule 7.6).
fn class_held(f: Frame, k: u32) -> bool
    ensures { result ≡ class_held (pair f.c1 f.c2) k }
{
    let Ok(n) = u32::try_from(candidate_of(f.c1, f.c2, k)) else {
        return false;
    };
    let found = class_of(f.c1, f.c2, n);
    found == k
}

// A number and a base suit a variable's form, with so many arrays in the record.
fn variable_fits(f: Frame, form: Form, number: u32, base: u32, count: u32) -> bool
    ensures { result ≡ fits_by_form f count form number base }
{
    match form {
        Form::Bool => number <= 1,
        Form::Uint => true,
        Form::Class => class_held(f, number),
        Form::Pointer => base <= count,
    }
}

// Every variable is of its type (rules 7.5 to 7.7).
pub fn variables_fit(t: &[u32], f: Frame, m: Machine) -> bool
    requires { f.counts.decls ≤ 32 }
    ensures { (callers : List Caller) (cells : List ℕ)
        → result ≡ variables_fit (kind_of f) (places f) (table_for t.now f) (state_in t.now f callers m cells) }
{
    for i in 0..f.counts.decls {
        let form = form_of(t, f, i);
        if !variable_fits(f, form, m.numbers[i], m.bases[i], m.count) {
            return false;
        }
    }
    true
}

// A variable may hold its number while the procedure with the first row `at_work`, or main (0), is at work: it is a global, a local of that, or 0.
fn may_hold(owner: u32, at_work: u32, number: u32) -> bool
    ensures { result ≡ idle_by owner at_work number }
{
    ((owner == 0) | (owner == at_work)) | (number == 0)
}

// A local of what is not at work is 0, also where a caller stands in it (rule 7.18).
pub fn locals_idle(t: &[u32], f: Frame, m: Machine, at_work: u32) -> bool
    requires { InSorts (table_for t.now f) × Accepted (kind_of f) (table_for t.now f) × (at_work ≡ home (table_for t.now f) m.row) }
    ensures { (callers : List Caller) (cells : List ℕ)
        → result ≡ locals_idle (table_for t.now f) (state_in t.now f callers m cells) }
{
    let owners = owners_of(t, f.counts);
    for i in 0..f.counts.decls {
        if !may_hold(owners[i], at_work, m.numbers[i]) {
            return false;
        }
    }
    true
}
