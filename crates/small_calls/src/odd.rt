// Growths at 1 Mbit/s in a hard recording: how far one symbol grew, and the first symbol of a payload that is grown by
// 1 or 3, block after block. No octet is worked out.
ghost use Rattle.std.specs.Prelude.{◌≡◌, ◌+◌, ◌-◌, ◌*◌, ◌≤◌, ◌<◌, length};
ghost use Rattle.rules_rates.specs.Rates.{octet_chips};
ghost use Rattle.rules_chips.specs.Chips.{hard_recording};
ghost use Rattle.rules_bits.specs.Growths.{growths_of};
ghost use Rattle.rules_reading.specs.Reading.{first_odd, odd_growth};
ghost use Rattle.rules_why.specs.Why.{growth_at};
ghost use Rattle.choose_recorded.specs.Recorded.{AllUsable, DecidedAt};
ghost use Rattle.hear_parts.specs.Hearing.{part_words};
ghost use Rattle.small_calls.specs.Why.{GrownOver};

use choose_recorders::Recording;
use rules_rates::Rate;

// Symbols at 1 Mbit/s: the place of the first that is grown by 1 or 3, and the phase of the last.
#[derive(Clone, Copy)]
pub struct Grown {
    pub odd: Option<usize>,
    pub last: u8,
}

// Symbols at 1 Mbit/s from a place, at most 64, decided as reading decides them.
fn decide(chips: &[u8], place: usize, m: usize, numbers: &mut [u8; 64])
    requires { (m ≤ 64) × (place + 11 * m ≤ length chips.now)
        × AllUsable (hard_recording chips.now) place (11 * m) × (length numbers.old ≡ 64) }
    ensures numbers { DecidedAt Rate.One (hard_recording chips.now) place m numbers.new }
{
    let mut leads = [0u32; 64];
    Recording::Hard(chips).decide(Rate::One, place, m, numbers, &mut leads);
}

// 10: how far the symbol at a place grew from the one before it.
pub fn growth_at(chips: &[u8], place: usize) -> u64
    requires { (11 ≤ place) × (place + 11 ≤ length chips.now)
        × AllUsable (hard_recording chips.now) (place - 11) 22 }
    ensures answer { result ≡ growth_at place (hard_recording chips.now) }
{
    let mut numbers = [0u8; 64];
    decide(chips, place - 11, 2, &mut numbers);
    ((numbers[1] + 4 - numbers[0]) % 4) as u64
}

// Octets at 1 Mbit/s that start at a place, at most a block of them, the first symbol grown from a phase.
fn block(chips: &[u8], place: usize, count: usize, before: u8) -> Grown
    requires { (0 < count) × (count ≤ 8) × (place + 88 * count ≤ length chips.now) × (before < 4)
        × AllUsable (hard_recording chips.now) place (88 * count) }
    ensures answer { GrownOver place before
        (part_words Rate.One place count (hard_recording chips.now)) result }
{
    let mut numbers = [0u8; 64];
    let m = 8 * count;
    decide(chips, place, m, &mut numbers);
    Grown {
        odd: hear_blocks::odd_growth(place, before, numbers, m),
        last: numbers[m - 1],
    }
}

// 10 over octets at 1 Mbit/s that start at a place, eight after eight, which are 64 symbols: the first symbol that is
// grown by 1 or 3, the first of them from a phase.
fn first_odd(chips: &[u8], from: usize, n: usize, phase: u8) -> Option<usize>
    requires { (from + 88 * n ≤ length chips.now) × (phase < 4)
        × AllUsable (hard_recording chips.now) from (88 * n) }
    ensures answer { result ≡ first_odd from (growths_of Rate.One phase
        (part_words Rate.One from n (hard_recording chips.now))) }
{
    let mut before = phase;
    for k in (0..n).step_by(8) {
        let Grown { odd, last } = block(chips, from + 88 * k, (n - k).min(8), before);
        if let Some(place) = odd {
            return Some(place);
        }
        before = last;
    }
    None
}

// 10 over a payload: symbols of the other rates may grow by anything, and none is looked at.
pub fn odd_in_payload(chips: &[u8], from: usize, rate: Rate, n: usize, phase: u8) -> Option<usize>
    requires { (from + octet_chips rate * n ≤ length chips.now) × (phase < 4)
        × AllUsable (hard_recording chips.now) from (octet_chips rate * n) }
    ensures answer { result ≡ odd_growth rate from (growths_of rate phase
        (part_words rate from n (hard_recording chips.now))) }
{
    match rate {
        Rate::One => first_odd(chips, from, n, phase),
        Rate::Two | Rate::Five | Rate::Eleven => None,
    }
}
