// The table of contents of a store: its entries, what is asked of all of them, and where the three settings stand.
ghost use Rattle.std.specs.Prelude.{◌≡◌, true, cond, not, ◌+◌, ◌*◌, ◌≤◌, ◌<◌, length, drop};
ghost use Rattle.rules_store.specs.Store.{entry_of, entries_in, table_end, rising, passable, laid as Store·laid};
ghost use Rattle.store_keep.specs.Refusals.{number_shown, ThreeEntries, first_of};

use crate::refusal::StoreRefusal;
use rules_store::Entry;

// The i-th entry.
fn entry(store: &[u8], i: usize) -> Entry
    requires { table_end (i + 1) ≤ length store.now }
    ensures answer { (result ≡ entry_of (drop (2 + 4 * i) store.now)) × (result.tag < 256) × (result.size < 256) }
{
    let at = 2 + 4 * i;
    let tag = usize::from(store[at]);
    let low = usize::from(store[at + 1]);
    let high = usize::from(store[at + 2]);
    let size = usize::from(store[at + 3]);
    Entry {
        tag,
        offset: low + 256 * high,
        size,
    }
}

// What all n entries are refused with, asked in one pass: 23 where their tags do not rise strictly, 24 where a body or
// the end is not as laid out, 25 where a tag is 128 or more. Tags that rise are below 128 if the last one is.
pub fn ask(store: &[u8], n: usize) -> Result<(), StoreRefusal>
    requires { (table_end n ≤ length store.now) × (n ≤ 16) }
    ensures answer { number_shown result ≡ cond (not (rising 0 (entries_in n (drop 2 store.now)))) 23
        (cond (not (Store·laid (table_end n) (entries_in n (drop 2 store.now))
        (length store.now))) 24 (cond (not (passable (entries_in n (drop 2 store.now)))) 25 0)) }
{
    let mut laid = true;
    let mut least = 0;
    let mut at = 2 + 4 * n;
    for i in 0..n {
        let e = entry(store, i);
        if e.tag < least {
            return Err(StoreRefusal::TagsFall);
        }
        laid &= e.offset == at;
        least = e.tag + 1;
        at += e.size;
    }
    if !laid || at != store.len() {
        return Err(StoreRefusal::NotLaid);
    }
    if 128 < least {
        return Err(StoreRefusal::HighTag);
    }
    Ok(())
}

// The entries of the three settings among n, if all are there. Tags rise, so they are the first three, or stand behind
// an entry of tag 0; and the third of those has tag 3 only if all are there.
fn three_entries(store: &[u8], n: usize) -> Option<(Entry, Entry, Entry)>
    requires { (table_end n ≤ length store.now) × (rising 0 (entries_in n (drop 2 store.now)) ≡ true) }
    ensures answer { ThreeEntries (entries_in n (drop 2 store.now)) result }
{
    if n < 3 {
        return None;
    }
    let head = entry(store, 0);
    let first = (head.tag == 0) as usize;
    if n < first + 3 {
        return None;
    }
    let a = entry(store, first);
    let b = entry(store, first + 1);
    let c = entry(store, first + 2);
    if c.tag == 3 { Some((a, b, c)) } else { None }
}

// Where the first of the three settings among n entries stands; 26 where not all are there, 27 where one has not one
// octet.
pub fn find_three(store: &[u8], n: usize) -> Result<usize, StoreRefusal>
    requires { (table_end n ≤ length store.now) × (rising 0 (entries_in n (drop 2 store.now)) ≡ true) }
    ensures answer { result ≡ first_of (entries_in n (drop 2 store.now)) }
{
    let Some((a, b, c)) = three_entries(store, n) else {
        return Err(StoreRefusal::Lacking);
    };
    if a.size == 1 && b.size == 1 && c.size == 1 {
        Ok(a.offset)
    } else {
        Err(StoreRefusal::NotSingle)
    }
}
