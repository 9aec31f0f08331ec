// A hard recording: a row of octets, 0 to 3 a phase, 4 lost, 5 to 255 unusable. Each loop over symbols gathers a
// symbol's chips in an array that dissolves in it; at 11 Mbit/s sixteen symbols stand abreast, as columns of a row. An
// octet that is none of the phases counts as nothing, so symbols are decided whatever their chips are.
#![tactic(auto)]

ghost use Rattle.std.specs.Prelude.{◌≡◌, true, not, ◌+◌, ◌*◌, ◌<◌, ◌≤◌, length, get_or};
ghost use Rattle.rules_chips.specs.Chips.{unusable, is_unusable, hard_recording};
ghost use Rattle.choose_recorded.specs.Columns.{Columns, hard_column};
ghost use Rattle.choose_recorded.specs.Recorded.{hard_part, AllUsable, DecidedAt, LeadsAt};

use choose_axes::Axis;
use rules_chips::Chip;
use rules_rates::Rate;

// Whether the chip at a place is usable.
pub fn usable_at(octets: &[u8], at: usize) -> bool
    requires { at < length octets.now }
    ensures answer { result ≡ not (is_unusable (get_or (hard_recording octets.now) at unusable)) }
{
    octets[at] <= 4
}

// Whether 64 chips from a place are usable: a test for skipping them, so only its yes says something.
pub fn clean(octets: &[u8], at: usize) -> bool
    requires { at + 64 ≤ length octets.now }
    ensures answer { result ≡ true → AllUsable (hard_recording octets.now) at 64 }
{
    let mut top: u8 = 0;
    for k in 0..64 {
        let x = octets[at + k];
        top = if top < x { x } else { top };
    }
    top < 5
}

// The chips of a symbol.
fn symbol<const N: usize>(octets: &[u8], at: usize) -> [Chip; N]
    requires { at + N ≤ length octets.now }
    ensures answer { result ≡ hard_part octets.now at N }
{
    let mut chips = [Chip::Lost; N];
    for k in 0..N {
        chips[k] = choose_counts::hard_chip(octets[at + k]);
    }
    chips
}

// m Barker symbols from a place.
// Neither it nor the two loops below are inlined: choose_recorders says why, at `decide`.
#[inline(never)]
pub fn barkers(octets: &[u8], at: usize, m: usize, numbers: &mut [u8; 64], leads: &mut [u32; 64])
    requires { (m ≤ 64) × (at + 11 * m ≤ length octets.now)
        × (length numbers.old ≡ 64) × (length leads.old ≡ 64) }
    ensures numbers { DecidedAt Rate.One (hard_recording octets.now) at m numbers.new }
    ensures leads { LeadsAt Rate.One (hard_recording octets.now) at m leads.new }
{
    let mut full = [0u8; 64];
    for l in 0..m {
        let c = choose_by_units::decide_barker(symbol(octets, at + 11 * l));
        numbers[l] = c.number;
        full[l] = c.lead;
    }
    choose_words::in_counts(&full, leads);
}

// m symbols of 5.5 Mbit/s from a place.
#[inline(never)]
pub fn fives(octets: &[u8], at: usize, m: usize, numbers: &mut [u8; 64], leads: &mut [u32; 64])
    requires { (m ≤ 64) × (at + 8 * m ≤ length octets.now)
        × (length numbers.old ≡ 64) × (length leads.old ≡ 64) }
    ensures numbers { DecidedAt Rate.Five (hard_recording octets.now) at m numbers.new }
    ensures leads { LeadsAt Rate.Five (hard_recording octets.now) at m leads.new }
{
    let mut full = [0u8; 64];
    for l in 0..m {
        let c = choose_by_units::decide_five(symbol(octets, at + 8 * l));
        numbers[l] = c.number;
        full[l] = c.lead;
    }
    choose_words::in_counts(&full, leads);
}

// Up to sixteen symbols of 11 Mbit/s as columns of a row, in full chips.
fn columns(octets: &[u8], at: usize, count: usize, row: &mut [i8])
    requires { (count ≤ 16) × (at + 8 * count ≤ length octets.now) × (length row.old ≡ 256) }
    ensures row { Columns (hard_column Axis.I octets.now at)
        (hard_column Axis.Q octets.now at) row.new count }
{
    for l in 0..count {
        let chips = symbol(octets, at + 8 * l);
        choose_abreast::put_column(
            choose_axes::hard_units(chips, Axis::I),
            choose_axes::hard_units(chips, Axis::Q),
            l,
            row,
        );
    }
}

// m symbols of 11 Mbit/s from a place, sixteen abreast.
#[inline(never)]
pub fn elevens(octets: &[u8], at: usize, m: usize, numbers: &mut [u8; 64], leads: &mut [u32; 64])
    requires { (m ≤ 64) × (at + 8 * m ≤ length octets.now)
        × (length numbers.old ≡ 64) × (length leads.old ≡ 64) }
    ensures numbers { DecidedAt Rate.Eleven (hard_recording octets.now) at m numbers.new }
    ensures leads { LeadsAt Rate.Eleven (hard_recording octets.now) at m leads.new }
{
    let mut row = [0i8; 256];
    let mut z = [0i16; 256];
    let mut a = [0i16; 512];
    let mut l: usize = 0;
    while l < m {
        let count = choose_abreast::at_most_16(m - l);
        columns(octets, at + 8 * l, count, &mut row);
        choose_search::sixteen(&row, &mut z, &mut a, 1024, l, numbers, leads);
        l += 16;
    }
}
