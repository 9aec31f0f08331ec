// The choice at 11 Mbit/s, from sixteen symbols abreast. For one p3 after the other, the loop over columns reads a
// column's eight numbers of the first stage and goes through the four groups of that p3, in their order, so that of
// equal keys the first stays: the smallest number.
#![tactic(auto)]

ghost use Rattle.std.specs.Prelude.{◌≡◌, ◌+◌, ◌*◌, ◌-◌, ◌≤◌, ◌<◌, T, length, map, get_or, pos, negsuc, ◌≤ℤ◌};
ghost use Rattle.std.specs.Int.Signed.{non_neg};
ghost use Rattle.choose_recorded.specs.Recorded.{Put};
ghost use Rattle.choose_walsh.specs.Rows.{eleven_at, eleven_lead, RowsBounded};
ghost use Rattle.choose_search.specs.Keys.{groups};
ghost use Rattle.choose_walsh.specs.Search.{Sought, Keyed, word_of_key, lead_of_keys};

use crate::groups::Best;
use choose_stages::{Complex, Lane};

mod groups;

// The four groups of one p3 in all columns.
fn quarter<N: Lane>(a: &[N], p3: usize, first: &mut [N], second: &mut [N], at: &mut [N])
    requires { (length a.now ≡ 512) × (p3 < 4) × RowsBounded (2 * (16 * N.most + 4)) 16 (map N.value a.now)
        × Sought (map N.value a.now) (4 * p3) (map N.value first.old) (map N.value second.old) (groups N.value at.old) }
    ensures rows { Sought (map N.value a.now) (4 * p3 + 4) (map N.value first.new) (map N.value second.new)
        (groups N.value at.new) }
{
    let from = 32 * p3;
    let g = (4 * p3) as u8;
    for l in 0..16 {
        let b = Best {
            first: first[l],
            second: second[l],
            group: at[l],
        };
        let q = Complex::at(a, 384 + from, l);
        let p = Complex::at(a, 128 + from, l);
        let f = Complex::at(a, 256 + from, l);
        let e = Complex::at(a, from, l);
        let c = groups::column(b, q, p, f, e, g);
        first[l] = c.first;
        second[l] = c.second;
        at[l] = c.group;
    }
}

// All sixteen groups.
fn search<N: Lane>(a: &[N], first: &mut [N], second: &mut [N], at: &mut [N])
    requires { (length a.now ≡ 512) × RowsBounded (2 * (16 * N.most + 4)) 16 (map N.value a.now)
        × Sought (map N.value a.now) 0 (map N.value first.old) (map N.value second.old) (groups N.value at.old) }
    ensures rows { Sought (map N.value a.now) 16 (map N.value first.new) (map N.value second.new)
        (groups N.value at.new) }
{
    for p3 in 0..4 {
        quarter(a, p3, first, second, at);
    }
}

// The lead of the word that has the first of two keys, in counts: so many to one of what its chips are told in.
fn lead_of<N: Lane>(unit: u32, first: N, second: N) -> u32
    requires { (unit ≤ N.units) × T (non_neg (N.value first)) × (negsuc 1 ≤ℤ N.value second)
        × (N.value second ≤ℤ N.value first) }
    ensures answer { result ≡ unit * lead_of_keys (N.value first) (N.value second) }
{
    unit * first.lead(second.larger(N::of(0)))
}

// The numbers of sixteen words and their leads, from place l on.
fn put<N: Lane>(
    first: &[N],
    second: &[N],
    at: &[N],
    unit: u32,
    l: usize,
    numbers: &mut [u8; 64],
    leads: &mut [u32; 64],
)
    requires { Keyed (map N.value first.now) (map N.value second.now) (groups N.value at.now) × (unit ≤ N.units)
        × (l + 16 ≤ 64) × (length numbers.old ≡ 64) × (length leads.old ≡ 64) }
    ensures numbers { Put
        (λ s. word_of_key (get_or (map N.value first.now) s (pos 0)) (get_or (groups N.value at.now) s 0)) l
        numbers.old numbers.new 16 }
    ensures leads { Put
        (λ s. unit
        * lead_of_keys (get_or (map N.value first.now) s (pos 0)) (get_or (map N.value second.now) s (pos 0))) l
        leads.old leads.new 16 }
{
    for s in 0..16 {
        numbers[l + s] = first[s].word(at[s]);
        leads[l + s] = lead_of(unit, first[s], second[s]);
    }
}

// Sixteen symbols abreast, decided; their numbers and leads from place l on, the leads in counts: unit is how many
// counts are one of the row's numbers. The rows z and a are to work in: chips as they enter, and the first stage.
pub fn sixteen<N: Lane>(
    row: &[N::Chip],
    z: &mut [N],
    a: &mut [N],
    unit: u32,
    l: usize,
    numbers: &mut [u8; 64],
    leads: &mut [u32; 64],
)
    requires { (length row.now ≡ 256) × (length z.old ≡ 256) × (length a.old ≡ 512) × (unit ≤ N.units)
        × (l + 16 ≤ 64) × (length numbers.old ≡ 64) × (length leads.old ≡ 64) × N.Recorded row.now }
    ensures lengths { (length z.new ≡ 256) × (length a.new ≡ 512) }
    ensures numbers { Put (eleven_at (N.chips row.now)) l numbers.old numbers.new 16 }
    ensures leads { Put (λ s. unit * eleven_lead (N.chips row.now) s) l leads.old leads.new 16 }
{
    let none = N::of(2).negated();
    let mut first = [none; 16];
    let mut second = [none; 16];
    let mut at = [N::of(0); 16];
    choose_stages::enter(row, z);
    choose_stages::pairs(z, a);
    search(a, &mut first, &mut second, &mut at);
    put(&first, &second, &at, unit, l, numbers, leads);
}
