// The choice of a word from a symbol's chips, I and Q apart, at 1, 2 and 5.5 Mbit/s, once for the numbers in which
// every recorder tells its chips: the largest score wins, among equals the smallest number, and its lead over the best
// of the others is told. Each public function is called from one loop over symbols, in which its arrays dissolve.
//
// Keys: of 4 w words, numbers n and n + 2 w opposite, a score s and a number n make the key 4 w s + (4 w - 1 - n): the
// largest key is the largest score and, among equals, the smallest number. Of two opposite words only the better one
// can win, so half as many keys give the number. The other one's score is not above 0, so the second largest of these
// keys is that of the best other word, and gives the lead.
#![tactic(auto)]

ghost use Rattle.std.specs.Prelude.{◌≡◌, ◌+◌, ◌*◌, ◌-◌, ◌/◌, ◌%◌, ◌<◌, ◌≤◌, ℕ, ℤ, pos, ◌+ℤ◌, ◌-ℤ◌, map};
ghost use Rattle.base.specs.Whole.{Within};
ghost use Rattle.base.specs.Tables.{tabulate};
ghost use Rattle.rules_choosing.specs.Scores.{RowWithin, score_at, number5, ChosenAs};
ghost use Rattle.rules_choosing.specs.Keys.{bigger, lesser, key_of};
ghost use Rattle.choose_sums.specs.Sums.{by_signs, as_chip, rows, crossed, key_at};
ghost use Rattle.choose_words.specs.Held.{HeldTwo};

use rules_rates::Rate;
use std::ops::{Add, Sub};

mod bytes;
mod counts;
mod units;

// The number in which one axis of a chip is told, with the keys by which its scores are compared. Sums of eleven chips
// have room in it, and so do their keys in theirs.
pub trait Number: Copy + Add<Output = Self> + Sub<Output = Self> {
    type Key: Copy;

    type Lead: Copy;

    // The whole number that it is, and how large that of one chip can be.
    ghost whole: { Self → ℤ };

    ghost most: { ℕ };

    // What a key holds, and what a lead is.
    ghost holds: { Self.Key → ℕ → Type 0 };

    ghost lead: { Self.Lead → ℕ };

    // The larger and the smaller of any two keys, whatever they hold.
    ghost larger_of: { Self.Key → Self.Key → Self.Key };

    ghost smaller_of: { Self.Key → Self.Key → Self.Key };

    fn zero() -> Self
        ensures { whole result ≡ pos 0 };

    // The better key of the words n and n + 2 w, whose scores are this one and its negative.
    fn key(self, w: u8, n: u8) -> Self::Key
        requires { (w ≤ 4) × Within (most * 11) (whole self) × (n < w + w) }
        ensures { holds result (key_of (w + w) n (whole self)) };

    // The larger of two keys.
    fn larger(a: Self::Key, b: Self::Key) -> Self::Key
        ensures is { result ≡ larger_of a b }
        ensures holds { (x y : ℕ) → holds a x → holds b y → holds result (bigger x y) };

    // The smaller of them.
    fn smaller(a: Self::Key, b: Self::Key) -> Self::Key
        ensures is { result ≡ smaller_of a b }
        ensures holds { (x y : ℕ) → holds a x → holds b y → holds result (lesser x y) };

    // The number of the word that has a key.
    fn number_of(w: u8, key: Self::Key) -> u8
        requires { (0 < w) × (w ≤ 4) × ((x : ℕ) × holds key x) }
        ensures { (x : ℕ) → holds key x → result ≡ 4 * w - 1 - x % (4 * w) };

    // The lead of the word that has the first of two keys.
    fn lead_of(w: u8, first: Self::Key, second: Self::Key) -> Self::Lead
        requires { (0 < w) × (w ≤ 4) × ((x : ℕ) × (y : ℕ) × holds first x × holds second y × (y ≤ x)) }
        ensures { (x y : ℕ) → holds first x → holds second y → lead result ≡ x / (4 * w) - y / (4 * w) };

    ghost adds: { (a b : Self) → Within (most * 11) (whole a +ℤ whole b) → Self.can_add a b };

    ghost added: { (a b r : Self) → Self.add_gives a b r → whole r ≡ whole a +ℤ whole b };

    ghost takes: { (a b : Self) → Within (most * 11) (whole a -ℤ whole b) → Self.can_sub a b };

    ghost taken: { (a b r : Self) → Self.sub_gives a b r → whole r ≡ whole a -ℤ whole b };
}

// A lead as a recorder tells it.
pub trait Told: Copy {
    // The counts that it is.
    ghost counts: { Self → ℕ };

    fn in_counts(self) -> u32
        ensures { result ≡ counts self };
}

// Leads in counts: a loop of its own, since four counts take the room of sixteen octets, or of eight numbers of 16 bits.
pub fn in_counts<L: Told>(told: &[L; 64], leads: &mut [u32; 64])
    ensures leads { leads.new ≡ map L.counts told.now }
{
    for l in 0..64 {
        leads[l] = told[l].in_counts();
    }
}

// Two keys, the larger first.
#[derive(Clone, Copy)]
struct Two<K> {
    first: K,
    second: K,
}

// The number of the word decided, and its lead in what the recorder tells leads in.
#[derive(Clone, Copy)]
pub struct Choice<L> {
    pub number: u8,
    pub lead: L,
}

// The sum of eleven numbers by the signs of a Barker symbol.
fn by_signs<T: Number>(c: [T; 11]) -> T
    requires { RowWithin T.most (map T.whole c) }
    ensures { T.whole result ≡ by_signs (map T.whole c) }
{
    let turns = common_words::BARKER;
    let mut x = T::zero();
    for k in 0..11 {
        if turns[k] == 0 {
            x = x + c[k];
        } else {
            x = x - c[k];
        }
    }
    x
}

// The sums of four words over two rows: chips 1, 3, 5, 7 of s, and 0, 2, 4, 6 of t.
fn crossed<T: Number>(s: [T; 8], t: [T; 8]) -> [T; 4]
    requires { RowWithin T.most (map T.whole s) × RowWithin T.most (map T.whole t) }
    ensures { map T.whole result ≡ crossed (map T.whole s) (map T.whole t) }
{
    let a = t[0] + t[2];
    let b = s[1] - s[3];
    let c = t[4] - t[6];
    let d = s[5] + s[7];
    let u = b + a;
    let x = b - a;
    let v = d + c;
    let y = d - c;
    let r0 = v + u;
    let r1 = v - u;
    let r2 = y + x;
    let r3 = y - x;
    [r0, r1, r2, r3]
}

// The scores of the first eight allowed words of 5.5 Mbit/s, in the order of their numbers.
fn halves<T: Number>(i: [T; 8], q: [T; 8]) -> [T; 8]
    requires { RowWithin T.most (map T.whole i) × RowWithin T.most (map T.whole q) }
    ensures { map T.whole result ≡
        tabulate (λ k. score_at Rate.Five (rows (map T.whole i) (map T.whole q)) (number5 k)) 8 }
{
    let m = crossed(i, q);
    let n = crossed(q, i);
    [m[0], m[1], m[2], m[3], n[2], n[3], n[0], n[1]]
}

// The keys of two neighbours, the larger first: the words n and n + 1, whose scores are s and t, and their opposites.
fn two_keys<T: Number>(w: u8, s: T, n: u8, t: T) -> Two<T::Key>
    requires { (w ≤ 4) × Within (T.most * 11) (T.whole s) × Within (T.most * 11) (T.whole t) × (n + 1 < w + w) }
    ensures first { T.holds result.first
        (bigger (key_of (w + w) n (T.whole s)) (key_of (w + w) (n + 1) (T.whole t))) }
    ensures second { T.holds result.second
        (lesser (key_of (w + w) n (T.whole s)) (key_of (w + w) (n + 1) (T.whole t))) }
{
    let a = s.key(w, n);
    let b = t.key(w, n + 1);
    Two {
        first: T::larger(a, b),
        second: T::smaller(a, b),
    }
}

// The two largest of what a and b are the two largest of.
fn merge<T: Number>(a: Two<T::Key>, b: Two<T::Key>) -> Two<T::Key>
    ensures is { (result.first ≡ T.larger_of a.first b.first) × (result.second ≡
        T.larger_of (T.smaller_of a.first b.first) (T.larger_of a.second b.second)) }
    ensures two { (k : ℕ → ℕ) (m n l : ℕ) → HeldTwo T.holds k m n a.first a.second
        → HeldTwo T.holds k n l b.first b.second → HeldTwo T.holds k m l result.first result.second }
{
    let low = T::smaller(a.first, b.first);
    let other = T::larger(a.second, b.second);
    Two {
        first: T::larger(a.first, b.first),
        second: T::larger(low, other),
    }
}

// The two largest keys of the eight.
fn two_largest<T: Number>(h: [T; 8]) -> Two<T::Key>
    requires { RowWithin (T.most * 8) (map T.whole h) }
    ensures { HeldTwo T.holds (key_at (map T.whole h)) 0 8 result.first result.second }
{
    let a = two_keys(4, h[0], 0, h[1]);
    let b = two_keys(4, h[2], 2, h[3]);
    let c = two_keys(4, h[4], 4, h[5]);
    let d = two_keys(4, h[6], 6, h[7]);
    merge::<T>(merge::<T>(a, b), merge::<T>(c, d))
}

// The choice by the sums over I and Q.
fn choose<T: Number>(i: T, q: T) -> Choice<T::Lead>
    requires { Within (T.most * 11) (T.whole i) × Within (T.most * 11) (T.whole q) }
    ensures { ChosenAs Rate.One (as_chip (T.whole i) (T.whole q)) result.number (T.lead result.lead) }
{
    let top = two_keys(1, i, 0, q);
    Choice {
        number: T::number_of(1, top.first),
        lead: T::lead_of(1, top.first, top.second),
    }
}

// The choice of a phase by eleven chips, I and Q apart.
pub fn barker<T: Number>(i: [T; 11], q: [T; 11]) -> Choice<T::Lead>
    requires { RowWithin T.most (map T.whole i) × RowWithin T.most (map T.whole q) }
    ensures { ChosenAs Rate.One (as_chip (by_signs (map T.whole i)) (by_signs (map T.whole q)))
        result.number (T.lead result.lead) }
{
    choose(by_signs(i), by_signs(q))
}

// The number of the k-th allowed word.
fn allowed_number(k: u8) -> u8
    requires { k < 16 }
    ensures { result ≡ number5 k }
{
    64 * (k / 4) + 16 * (2 * (k / 2 % 2) + 1) + 2 * (k % 2)
}

// The choice of a word of 5.5 Mbit/s by eight chips, I and Q apart.
pub fn five<T: Number>(i: [T; 8], q: [T; 8]) -> Choice<T::Lead>
    requires { RowWithin T.most (map T.whole i) × RowWithin T.most (map T.whole q) }
    ensures { ChosenAs Rate.Five (rows (map T.whole i) (map T.whole q)) result.number (T.lead result.lead) }
{
    let top = two_largest(halves(i, q));
    Choice {
        number: allowed_number(T::number_of(4, top.first)),
        lead: T::lead_of(4, top.first, top.second),
    }
}
