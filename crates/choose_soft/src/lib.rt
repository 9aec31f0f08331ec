// A soft recording: two rows of f32, I and Q, as far as both go. Each loop over symbols gathers a symbol's chips in an
// array that dissolves in it; at 11 Mbit/s sixteen symbols stand abreast, as columns of a row.
#![tactic(auto)]

ghost use Rattle.std.specs.Prelude.{◌≡◌, true, not, ◌+◌, ◌*◌, ◌<◌, ◌≤◌, length, get_or};
ghost use Rattle.rules_chips.specs.Chips.{unusable, is_unusable, soft_recording};
ghost use Rattle.rules_choosing.specs.Scores.{RowWithin};
ghost use Rattle.choose_recorded.specs.Columns.{Columns, soft_column};
ghost use Rattle.choose_recorded.specs.Recorded.{soft_part, AllUsable, DecidedAt, LeadsAt};

use choose_axes::Axis;
use rules_chips::{Chip, Sample};
use rules_rates::Rate;

// Whether the chip at a place is usable.
pub fn usable_at(i: &[f32], q: &[f32], at: usize) -> bool
    requires { (at < length i.now) × (at < length q.now) }
    ensures answer { result ≡
        not (is_unusable (get_or (soft_recording i.now q.now) at unusable)) }
{
    let s = Sample { i: i[at], q: q[at] };
    choose_counts::usable_sample(s)
}

// Whether 64 chips from a place are usable: a test for skipping them, so only its yes says something.
pub fn clean(i: &[f32], q: &[f32], at: usize) -> bool
    requires { (at + 64 ≤ length i.now) × (at + 64 ≤ length q.now) }
    ensures answer { result ≡ true → AllUsable (soft_recording i.now q.now) at 64 }
{
    let mut ok = true;
    for k in 0..64 {
        let s = Sample {
            i: i[at + k],
            q: q[at + k],
        };
        ok = ok & choose_counts::usable_sample(s);
    }
    ok
}

// The chips of a symbol.
fn symbol<const N: usize>(i: &[f32], q: &[f32], at: usize) -> [Chip; N]
    requires { (at + N ≤ length i.now) × (at + N ≤ length q.now) }
    ensures answer { result ≡ soft_part i.now q.now at N }
{
    let mut chips = [Chip::Lost; N];
    for k in 0..N {
        chips[k] = Chip::Soft(Sample {
            i: i[at + k],
            q: q[at + k],
        });
    }
    chips
}

// m Barker symbols from a place.
// Neither it nor the two loops below are inlined: choose_recorders says why, at `decide`.
#[inline(never)]
pub fn barkers(
    i: &[f32],
    q: &[f32],
    at: usize,
    m: usize,
    numbers: &mut [u8; 64],
    leads: &mut [u32; 64],
)
    requires { (m ≤ 64) × (at + 11 * m ≤ length i.now) × (at + 11 * m ≤ length q.now)
        × AllUsable (soft_recording i.now q.now) at (11 * m) × (length numbers.old ≡ 64)
        × (length leads.old ≡ 64) }
    ensures numbers { DecidedAt Rate.One (soft_recording i.now q.now) at m
        numbers.new }
    ensures leads { LeadsAt Rate.One (soft_recording i.now q.now) at m
        leads.new }
{
    for l in 0..m {
        let c = choose_by_counts::decide_barker(symbol(i, q, at + 11 * l));
        numbers[l] = c.number;
        leads[l] = c.lead;
    }
}

// m symbols of 5.5 Mbit/s from a place.
#[inline(never)]
pub fn fives(
    i: &[f32],
    q: &[f32],
    at: usize,
    m: usize,
    numbers: &mut [u8; 64],
    leads: &mut [u32; 64],
)
    requires { (m ≤ 64) × (at + 8 * m ≤ length i.now) × (at + 8 * m ≤ length q.now)
        × AllUsable (soft_recording i.now q.now) at (8 * m) × (length numbers.old ≡ 64)
        × (length leads.old ≡ 64) }
    ensures numbers { DecidedAt Rate.Five (soft_recording i.now q.now) at m
        numbers.new }
    ensures leads { LeadsAt Rate.Five (soft_recording i.now q.now) at m
        leads.new }
{
    for l in 0..m {
        let c = choose_by_counts::decide_five(symbol(i, q, at + 8 * l));
        numbers[l] = c.number;
        leads[l] = c.lead;
    }
}

// Up to sixteen symbols of 11 Mbit/s as columns of a row, in counts.
fn columns(i: &[f32], q: &[f32], at: usize, count: usize, row: &mut [i32])
    requires { (count ≤ 16) × (at + 8 * count ≤ length i.now) × (at + 8 * count ≤ length q.now)
        × AllUsable (soft_recording i.now q.now) at (8 * count) × (length row.old ≡ 256)
        × RowWithin 8192 row.old }
    ensures row { Columns (soft_column Axis.I i.now q.now at)
        (soft_column Axis.Q i.now q.now at) row.new count }
    ensures small { RowWithin 8192 row.new }
{
    for l in 0..count {
        let chips = symbol(i, q, at + 8 * l);
        choose_abreast::put_column(
            choose_axes::soft_counts(chips, Axis::I),
            choose_axes::soft_counts(chips, Axis::Q),
            l,
            row,
        );
    }
}

// m symbols of 11 Mbit/s from a place, sixteen abreast.
#[inline(never)]
pub fn elevens(
    i: &[f32],
    q: &[f32],
    at: usize,
    m: usize,
    numbers: &mut [u8; 64],
    leads: &mut [u32; 64],
)
    requires { (m ≤ 64) × (at + 8 * m ≤ length i.now) × (at + 8 * m ≤ length q.now)
        × AllUsable (soft_recording i.now q.now) at (8 * m) × (length numbers.old ≡ 64)
        × (length leads.old ≡ 64) }
    ensures numbers { DecidedAt Rate.Eleven (soft_recording i.now q.now) at m
        numbers.new }
    ensures leads { LeadsAt Rate.Eleven (soft_recording i.now q.now) at m
        leads.new }
{
    let mut row = [0i32; 256];
    let mut z = [0i32; 256];
    let mut a = [0i32; 512];
    let mut l: usize = 0;
    while l < m {
        let count = choose_abreast::at_most_16(m - l);
        columns(i, q, at + 8 * l, count, &mut row);
        choose_search::sixteen(&row, &mut z, &mut a, 1, l, numbers, leads);
        l += 16;
    }
}
