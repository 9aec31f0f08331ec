// Two rows of octets compared, as far as the shorter goes, 64 octets at a time: the entries of a block are put where
// they have room; from the first block on whose entries have none, entries are only counted. Knows nothing of radio.
#![tactic(auto)]

ghost use Rattle.std.specs.Prelude.{◌≡◌, ◌+◌, ◌*◌, ◌≤◌, ◌<◌, length};
ghost use Rattle.rules_compare.specs.Differences.{differences, laid};
ghost use Rattle.compare_rows.specs.Left.{left_over, Between, RoomFor, Put};

// How far both rows go.
fn shorter(a: &[u8], b: &[u8]) -> usize
    ensures answer { (result ≤ length a.now) × (result ≤ length b.now)
        × (left_over a.now b.now result ≡ 0)
        × (length (differences a.now b.now) ≤ result) }
{
    a.len().min(b.len())
}

// How many of the 64 octets from an index on differ.
fn in_block(a: &[u8], b: &[u8], at: usize) -> u8
    requires { (at + 64 ≤ length a.now) × (at + 64 ≤ length b.now) }
    ensures answer { (result ≤ 64) × Between a.now b.now at (at + 64) result }
{
    let mut n: u8 = 0;
    for k in 0..64 {
        if a[at + k] != b[at + k] {
            n += 1;
        }
    }
    n
}

// How many differ from one index up to another.
fn in_part(a: &[u8], b: &[u8], from: usize, to: usize) -> usize
    requires { (from ≤ to) × (to ≤ length a.now) × (to ≤ length b.now) }
    ensures answer { (result + from ≤ to) × Between a.now b.now from to result }
{
    let mut n = 0;
    for i in from..to {
        if a[i] != b[i] {
            n += 1;
        }
    }
    n
}

// How many differ from an index up to the end, 64 octets at a time.
fn how_many(a: &[u8], b: &[u8], from: usize, end: usize) -> usize
    requires { (from ≤ end) × (end ≤ length a.now) × (end ≤ length b.now) }
    ensures answer { Between a.now b.now from end result }
{
    let blocks = (end - from) / 64;
    let mut n = 0;
    for block in 0..blocks {
        n += usize::from(in_block(a, b, from + 64 * block));
    }
    n + in_part(a, b, from + 64 * blocks, end)
}

// The entry of one index, put at a place of the row where the rows differ there; the place behind it.
fn put_at(a: &[u8], b: &[u8], i: usize, row: &mut [u64], p: usize) -> usize
    requires { (i < length a.now) × (i < length b.now) × (p ≤ length row.old)
        × RoomFor a.now b.now i (i + 1) p row.old }
    ensures answer { Put a.now b.now i (i + 1) row.old p row.new result }
{
    let x = a[i];
    let y = b[i];
    if x == y {
        return p;
    }
    row[p] = i as u64;
    row[p + 1] = u64::from(x);
    row[p + 2] = u64::from(y);
    p + 3
}

// The entries from one index up to another.
fn put_part(a: &[u8], b: &[u8], from: usize, to: usize, row: &mut [u64], p: usize) -> usize
    requires { (from ≤ to) × (to ≤ length a.now) × (to ≤ length b.now)
        × RoomFor a.now b.now from to p row.old }
    ensures answer { Put a.now b.now from to row.old p row.new result }
{
    let mut q = p;
    for i in from..to {
        q = put_at(a, b, i, row, q);
    }
    q
}

// The n entries of the 64 octets from an index on.
fn put_block(a: &[u8], b: &[u8], at: usize, n: usize, row: &mut [u64], p: usize) -> usize
    requires { (at + 64 ≤ length a.now) × (at + 64 ≤ length b.now) × Between a.now b.now at (at + 64) n
        × (p + 3 * n ≤ length row.old) }
    ensures answer { Put a.now b.now at (at + 64)
        row.old p row.new result }
{
    if n == 0 {
        return p;
    }
    put_part(a, b, at, at + 64, row, p)
}

// How far the entries are put: those up to an index, which end at a place of the row.
#[derive(Clone, Copy)]
pub struct Reached {
    pub at: usize,
    pub p: usize,
}

// The entries of whole blocks, one behind the other, as far as they have room.
fn put_blocks(a: &[u8], b: &[u8], end: usize, row: &mut [u64]) -> Reached
    requires { (end ≤ length a.now) × (end ≤ length b.now) }
    ensures answer { (result.at ≤ end)
        × Put a.now b.now 0 result.at row.old 0 row.new result.p
        × (result.p ≤ length row.old) }
{
    let blocks = end / 64;
    let mut p = 0;
    for block in 0..blocks {
        let at = 64 * block;
        let n = usize::from(in_block(a, b, at));
        if row.len() - p < 3 * n {
            return Reached { at, p };
        }
        p = put_block(a, b, at, n, row, p);
    }
    Reached { at: 64 * blocks, p }
}

// Every index at which two rows differ, as far as the shorter goes, with both octets, three places an entry, and zeros
// behind them; only zeros where they do not fit. The number of entries is told in any case.
pub fn list(a: &[u8], b: &[u8], row: &mut [u64]) -> u64
    ensures answer { result ≡ length (differences a.now b.now) }
    ensures row { row.new
        ≡ laid (length row.old) (differences a.now b.now) }
{
    let end = shorter(a, b);
    let Reached { at, p } = put_blocks(a, b, end, row);
    let rest = how_many(a, b, at, end);
    if (row.len() - p) / 3 < rest {
        common_rows::clear(row, 0);
        return (p / 3 + rest) as u64;
    }
    let q = put_part(a, b, at, end, row, p);
    common_rows::clear(row, q);
    (q / 3) as u64
}
