// The choice list, read from its front (rule 3.11): a reader that holds the lent list and a cursor, the thin functions `take` and `rest` over
// it, and `take_choice`, whose parameters are plain and through which every choice is read. The test and the read stand in
// `choice_at`, on a slice and a number.
#![tactic(auto)]

ghost use Rattle.std.specs.Prelude.{◌≡◌};
ghost use Rattle.reader.specs.Choose.{choice_at, cursor_after, followed_by};

// The choice at a cursor, and the cursor after it; or none, where no choice is left.
fn choice_at(list: &[u32], at: usize) -> Option<(u32, usize)>
    ensures { result ≡ choice_at list.now at }
{
    if at < list.len() {
        Some((list[at], at + 1))
    } else {
        None
    }
}

// The cursor after one choice; the same cursor where none is left.
fn after(list: &[u32], at: usize) -> usize
    ensures { result ≡ cursor_after (choice_at list.now at) at }
{
    match choice_at(list, at) {
        Some((_, next)) => next,
        None => at,
    }
}

// The number of a choice, with another cursor after it.
fn followed(c: Option<(u32, usize)>, at: usize) -> Option<(u32, usize)>
    ensures { result ≡ followed_by c at }
{
    match c {
        Some((number, _)) => Some((number, at)),
        None => None,
    }
}

// The list, and where the next choice stands in it.
#[derive(Clone, Copy)]
pub struct Reader<'a> {
    list: &'a [u32],
    at: usize,
}

// A reader of a list, at a cursor.
pub fn new<'a>(list: &'a [u32], at: usize) -> Reader<'a>
    ensures { (result.list ≡ list.entry) × (result.at ≡ at) }
{
    Reader { list, at }
}

// The choice at the reader's cursor.
pub fn take<'a>(r: Reader<'a>) -> Option<(u32, usize)>
    ensures { result ≡ choice_at r.entry.list.now r.entry.at }
{
    choice_at(r.list, r.at)
}

// The reader after one choice.
pub fn rest<'a>(r: Reader<'a>) -> Reader<'a>
    ensures { (result.list ≡ r.entry.list) × (result.at ≡ cursor_after (choice_at r.entry.list.now r.entry.at) r.entry.at) }
{
    Reader {
        list: r.list,
        at: after(r.list, r.at),
    }
}

// Every choice is read here: the number is what `take` gives, and the cursor after it that of `rest`.
pub fn take_choice(list: &[u32], at: usize) -> Option<(u32, usize)>
    ensures { result ≡ choice_at list.now at } // the choice at the cursor, not the one after it
{
    let r = new(list, at);
    let c = take(r);
    let left = rest(r);
    followed(c, left.at)
}
