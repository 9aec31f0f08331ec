// A block of up to 64 decided words, which are whole octets, heard. Each function is one loop over the block, of octets
// only, so that the compiler takes sixteen at a time.
#![tactic(auto)]

ghost use Rattle.std.specs.Prelude.{◌≡◌, ◌+◌, ◌*◌, ◌^◌, ◌<◌, ◌≤◌, length, take, slice_index};
ghost use Rattle.base.specs.Below.{Below};
ghost use Rattle.base.specs.Over.{over};
ghost use Rattle.base.specs.Tables.{tabulate};
ghost use Rattle.rules_rates.specs.Rates.{symbol_bits, octet_symbols, octet_chips};
ghost use Rattle.rules_bits.specs.Bits.{number_of};
ghost use Rattle.rules_bits.specs.Growths.{growths_of};
ghost use Rattle.rules_reading.specs.Reading.{first_odd};
ghost use Rattle.hear_codes.specs.Codes.{grown_for, word_bits, phase_before, octet_after, behind, plain, AreWords};
ghost use Rattle.hear_blocks.specs.Heard.{plain_octets, Heard};

use common_lines::Line;
use rules_rates::Rate;

pub mod least;
mod odd;

// A line, and the place of the first symbol that is grown by 1 or 3 at 1 Mbit/s.
#[derive(Clone, Copy)]
pub struct Hearing {
    pub line: Line,
    pub odd: Option<usize>,
}

// The phase before the block, and behind it those of its words.
fn phases(rate: Rate, before: u8, numbers: [u8; 64]) -> [u8; 65]
    ensures answer { result ≡ tabulate (phase_before rate before numbers) 65 }
{
    let mut out = [0u8; 65];
    out[0] = before;
    for l in 0..64 {
        out[l + 1] = hear_codes::phase(rate, numbers[l]);
    }
    out
}

// How far each symbol grew for its bits, the first of them being number `symbol`.
fn growths(rate: Rate, symbol: usize, phases: [u8; 65]) -> [u8; 64]
    requires { Below 4 phases }
    ensures answer { result ≡
        tabulate (λ l. grown_for rate (symbol + l) (slice_index phases l) (slice_index phases (l + 1))) 64 }
{
    let first = (symbol % 2) as u8;
    let mut out = [0u8; 64];
    for l in 0..64 {
        out[l] = hear_codes::grown(rate, first, l, phases[l], phases[l + 1]);
    }
    out
}

// The bits of each symbol as a number.
fn codes(rate: Rate, g: [u8; 64], numbers: [u8; 64]) -> [u8; 64]
    requires { Below 4 g }
    ensures answer { result ≡ tabulate (λ l. number_of (word_bits rate (slice_index g l) (slice_index numbers l))) 64 }
{
    let mut out = [0u8; 64];
    for l in 0..64 {
        out[l] = hear_codes::code(rate, g[l], numbers[l]);
    }
    out
}

// The octet received before the block, and behind it the block's first octets, so many.
fn octets(rate: Rate, before: u8, c: [u8; 64], count: usize) -> [u8; 65]
    requires { (octet_symbols rate * count ≤ 64) × (count ≤ 64) × Below (2 ^ symbol_bits rate) c }
    ensures answer { take (count + 1) result ≡ tabulate (octet_after rate before c) (count + 1) }
{
    let mut raw = [0u8; 65];
    raw[0] = before;
    let symbols = rate.octet_symbols();
    for o in 0..count {
        raw[o + 1] = hear_codes::octet(rate, &c, symbols * o);
    }
    raw
}

// Received octets unscrambled, each after the one before it; the one before the block stands at 0.
fn unscramble(raw: [u8; 65], count: usize, out: &mut [u8])
    requires { (count ≤ 64) × (count ≤ length out.old) }
    ensures out { out.new ≡ over (plain count (slice_index raw 0) (behind raw count)) out.old }
{
    for o in 0..count {
        out[o] = common_lines::descramble_octet(raw[o], raw[o + 1]);
    }
}

// So many octets of words, the first of which is number `symbol` and has its first chip at a place, into a buffer's
// front. Of the number it matters only whether it is odd.
pub fn hear(
    rate: Rate,
    symbol: usize,
    place: usize,
    line: Line,
    numbers: [u8; 64],
    count: usize,
    out: &mut [u8],
) -> Hearing
    requires { (octet_symbols rate * count ≤ 64) × (count ≤ length out.old)
        × (place + octet_chips rate * count < 2 ^ 64) × (line.phase < 4) × (length numbers ≡ 64)
        × AreWords rate (take (octet_symbols rate * count) numbers) }
    ensures answer { Heard rate symbol place line (take (octet_symbols rate * count) numbers) result }
    ensures out { out.new ≡
        over (plain_octets rate symbol count line (take (octet_symbols rate * count) numbers)) out.old }
{
    let symbols = rate.octet_symbols();
    let m = symbols * count;
    let ps = phases(rate, line.phase, numbers);
    let g = growths(rate, symbol, ps);
    let c = codes(rate, g, numbers);
    let raw = octets(rate, line.past, c, count);
    unscramble(raw, count, out);
    let odd = odd::odd_in(rate, place, g, m);
    let past = raw[count];
    let phase = ps[m];
    let line = Line { past, phase };
    Hearing { line, odd }
}

// The first of m words at 1 Mbit/s that is grown by 1 or 3, the first of them from a phase: its place. Their octets are
// not asked for.
// Inlined into its one loop it takes 11 instructions a block more.
#[inline(never)]
pub fn odd_growth(place: usize, before: u8, numbers: [u8; 64], m: usize) -> Option<usize>
    requires { (m ≤ 64) × (place + 11 * m < 2 ^ 64) × (before < 4) × (length numbers ≡ 64)
        × AreWords Rate.One (take m numbers) }
    ensures answer { result ≡ first_odd place (growths_of Rate.One before (take m numbers)) }
{
    let ps = phases(Rate::One, before, numbers);
    let g = growths(Rate::One, 0, ps);
    odd::odd_in(Rate::One, place, g, m)
}
