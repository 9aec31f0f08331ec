// Whether a Barker symbol is decided as phase 2 or 3, at every chip of a hard recording, and the places from which an
// SFD is right: in a front that no odd growth refuses, bits at 1 Mbit/s hang on nothing else. Each function is one loop
// over a row of octets, so that the compiler takes sixteen places at a time; a row is worked over in place, from its
// front, and no step looks at an entry that it has written.
#![tactic(auto)]

ghost use Rattle.std.specs.Prelude.{false, List, ◌≡◌, ℕ, ◌+◌, ◌*◌, ◌/◌, ◌%◌, ◌≤◌, ◌<◌, length, get_or};
ghost use Rattle.std.specs.List.{All};
ghost use Rattle.rules_chips.specs.Chips.{Taken, hard_recording};
ghost use Rattle.find_sweep.specs.Sweep.{side_of, half_of_sides, Sides, half_at, Row, Added, half_of};
ghost use Rattle.find_sweep.specs.Sweep.{bit_of, plain_of, joined_of, Small, MarkedOf, Marked};

// ---- halves

// The side of an octet: 2 for the phases 0 and 1, 0 for 2 and 3, and 1 for what is none of them.
fn side(octet: u8) -> u8
    ensures answer { result ≡ side_of octet }
{
    1 + (octet / 2 == 0) as u8 - (octet / 2 == 1) as u8
}

// Whether eleven chips are decided as phase 2 or 3: their sides by the signs of a Barker symbol.
fn half(sides: [u8; 11]) -> u8
    requires { All (λ x. x ≤ 2) sides }
    ensures answer { result ≡ half_of_sides sides }
{
    let [a, b, c, d, e, f, g, h, i, j, k] = sides;
    (a + c + d + f + g + h <= b + e + i + j + k) as u8
}

// The sides of so many octets from a place on, the same in two rows, of which one is read at even distances and the
// other at odd ones: a loop that looked at neighbours in one row would keep them from turn to turn, and take one place
// at a time.
fn sides(octets: &[u8], at: usize, count: usize, evens: &mut [u8; 144], odds: &mut [u8; 144])
    requires { (count ≤ 144) × (at + count ≤ length octets.now) × (length evens.old ≡ 144)
        × (length odds.old ≡ 144) }
    ensures evens { Sides octets.now at count evens.new }
    ensures odds { Sides octets.now at count odds.new }
{
    for k in 0..count {
        let x = side(octets[at + k]);
        evens[k] = x;
        odds[k] = x;
    }
}

// The halves by two rows of sides, into entries of a row from l on.
fn fill(evens: &[u8; 144], odds: &[u8; 144], l: usize, count: usize, halves: &mut [u8; 512])
    requires { (count ≤ 128) × (l + count ≤ 512) × (length evens.now ≡ 144) × (length odds.now ≡ 144)
        × (length halves.old ≡ 512) × ((j : ℕ) → j < count + 10 → get_or evens.now j 0 ≤ 2)
        × ((j : ℕ) → j < count + 10 → get_or odds.now j 0 ≤ 2) }
    ensures halves { Added (half_of evens.now odds.now) l halves.old
        halves.new count }
{
    for k in 0..count {
        halves[l + k] = half([
            evens[k],
            odds[k + 1],
            evens[k + 2],
            odds[k + 3],
            evens[k + 4],
            odds[k + 5],
            evens[k + 6],
            odds[k + 7],
            evens[k + 8],
            odds[k + 9],
            evens[k + 10],
        ]);
    }
}

// The halves at up to 128 chips from a place on, into entries of a row from l on. Six chips more are looked at than
// they need, so that the rows of sides are whole sixteens.
fn halves_from(octets: &[u8], at: usize, l: usize, count: usize, halves: &mut [u8; 512])
    requires { (count ≤ 128) × (l + count ≤ 512) × (at + count + 16 ≤ length octets.now)
        × (length halves.old ≡ 512) }
    ensures halves { Added (λ s. half_at (hard_recording octets.now) (at + s)) l halves.old
        halves.new count }
{
    let mut evens = [0u8; 144];
    let mut odds = [0u8; 144];
    sides(octets, at, count + 16, &mut evens, &mut odds);
    fill(&evens, &odds, l, count, halves);
}

// The halves at every chip from a place on, count of them, of which the first so many are known.
pub fn decide(octets: &[u8], at: usize, known: usize, count: usize, halves: &mut [u8; 512])
    requires { (count ≤ 512) × (at + count + 16 ≤ length octets.now)
        × Row (λ j. half_at (hard_recording octets.now) (at + j)) known halves.old }
    ensures halves { Row (λ j. half_at (hard_recording octets.now) (at + j)) count
        halves.new }
{
    // By `step_by` a find takes one in a hundred instructions more.
    let mut l = known;
    while l < count {
        let n = (count - l).min(128);
        halves_from(octets, at + l, l, n, halves);
        l += n;
    }
}

// The row's second half to its front: what stood 256 places on stands there. By `copy_within` the archive would want a
// memmove of the host.
pub fn advance(halves: &mut [u8; 512])
    requires { length halves.old ≡ 512 }
    ensures halves { Row (λ j. get_or halves.old (j + 256) 0) 256 halves.new }
{
    for l in 0..256 {
        halves[l] = halves[l + 256];
    }
}

// ---- bits, unscrambled, four at a time

// Halves to the bits that symbols 11 chips apart were sent for.
fn bits(halves: &[u8; 512], row: &mut [u8; 512])
    requires { (length halves.now ≡ 512) × (length row.old ≡ 512) }
    ensures row { Row (bit_of halves.now) 501 row.new }
{
    for l in 0..501 {
        row[l] = halves[l] ^ halves[l + 11];
    }
}

// Bits to those that were scrambled, by those 4 and 7 before each.
fn plains(row: &mut [u8; 512])
    requires { length row.old ≡ 512 }
    ensures row { Row (plain_of row.old) 424 row.new }
{
    for l in 0..424 {
        row[l] = (row[l + 77] ^ row[l + 33] ^ row[l]) % 2;
    }
}

// Two small numbers, the second of which counts so much.
fn two(by: u8, a: u8, b: u8) -> u8
    requires { (by ≤ 4) × (a < 4) × (b < 4) }
    ensures answer { result ≡ a + by * b }
{
    a + by * b
}

// Each of the first so many joined with the one so far on, which counts so much.
fn join(apart: usize, by: u8, count: usize, row: &mut [u8; 512])
    requires { (by ≤ 4) × (count + apart ≤ 512) × Small (count + apart) row.old }
    ensures row { Row (joined_of apart by row.old) count row.new }
{
    for l in 0..count {
        row[l] = two(by, row[l], row[l + apart]);
    }
}

// ---- marks

// Whether four numbers below 16 are those of two octets, as a number.
fn mark(w: u8, x: u8, y: u8, z: u8, low: u8, high: u8) -> u8
    ensures answer { w ≡ low % 16 → x ≡ low / 16 → y ≡ high % 16 → z ≡ high / 16 → result ≡ 0 → ⊥ }
{
    ((w == low % 16) & (x == low / 16) & (y == high % 16) & (z == high / 16)) as u8
}

// Numbers below 16 to marks, where four of them 4 symbols apart are those of two octets.
fn compare(low: u8, high: u8, row: &mut [u8; 512])
    requires { length row.old ≡ 512 }
    ensures row { MarkedOf low high row.old 256 row.new }
{
    for l in 0..256 {
        row[l] = mark(row[l], row[l + 44], row[l + 88], row[l + 132], low, high);
    }
}

// Halves to marks: of the first 256 places, those from which two octets of an SFD are right.
pub fn marks(low: u8, high: u8, halves: &[u8; 512], row: &mut [u8; 512])
    requires { (length halves.now ≡ 512) × (length row.old ≡ 512) }
    ensures row { (rec : List Taken) (at m : ℕ) → m ≤ 256
        → Row (λ j. half_at rec (at + j)) (m + 253) halves.now
        → Marked low high rec at m row.new }
{
    bits(halves, row);
    plains(row);
    join(11, 2, 413, row);
    join(22, 4, 391, row);
    compare(low, high, row);
}

// Whether there may be a mark: no says that there is none.
pub fn any(marks: &[u8; 512]) -> bool
    ensures answer { result ≡ false → (j : ℕ) → j < 256 → get_or marks.now j 0 ≡ 0 }
{
    let mut all: u8 = 0;
    for mark in &marks[..256] {
        all |= *mark;
    }
    all != 0
}
