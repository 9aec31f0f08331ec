// A byte recording: signed bytes, I and Q in turn, a full chip being 64; no chip is unusable. Symbols are decided
// sixteen abreast, from bytes as they are: counts are 16 times as large, all of them, and choose the same word, by a
// lead 16 times as large.
#![tactic(auto)]

ghost use Rattle.std.specs.Prelude.{◌≡◌, ◌+◌, ◌*◌, ◌/◌, ◌<◌, ◌≤◌, length};
ghost use Rattle.base.specs.Whole.{Within};
ghost use Rattle.rules_chips.specs.Chips.{byte_recording};
ghost use Rattle.rules_symbols.specs.Choice.{decided, lead_of};
ghost use Rattle.rules_choosing.specs.Scores.{RowWithin};
ghost use Rattle.choose_sums.specs.Sums.{every_row};
ghost use Rattle.choose_recorded.specs.Recorded.{DecidedAt, LeadsAt, Put};
ghost use Rattle.choose_bytes.specs.Rows.{barker_at, five_at};

use rules_rates::Rate;

// A byte as a wider number.
fn wide(b: i8) -> i16
    ensures answer { result ≡ b }
    ensures small { Within 128 result }
{
    b as i16
}

// The bytes of one axis of a symbol among sixteen abreast.
fn symbol<const N: usize>(row: &[i8], from: usize) -> [i16; N]
    requires { from + 32 * N < length row.now + 32 }
    ensures answer { result ≡ every_row row.now from N }
    ensures small { RowWithin 128 result }
{
    let mut out = [0i16; N];
    for k in 0..N {
        out[k] = wide(row[from + 32 * k]);
    }
    out
}

// Sixteen Barker symbols abreast, their leads as bytes have them.
fn sixteen_barkers(row: &[i8], l: usize, numbers: &mut [u8; 64], raw: &mut [u16; 64])
    requires { (length row.now ≡ 352) × (l + 16 ≤ 64) × (length numbers.old ≡ 64)
        × (length raw.old ≡ 64) }
    ensures numbers { Put (λ s. decided Rate.One (barker_at row.now s)) l numbers.old
        numbers.new 16 }
    ensures raw { Put (λ s. lead_of Rate.One (barker_at row.now s)) l raw.old
        raw.new 16 }
{
    for s in 0..16 {
        let c = choose_words::barker(symbol(row, s), symbol(row, 16 + s));
        numbers[l + s] = c.number;
        raw[l + s] = c.lead;
    }
}

// Sixteen symbols of 5.5 Mbit/s abreast, their leads as bytes have them.
fn sixteen_fives(row: &[i8], l: usize, numbers: &mut [u8; 64], raw: &mut [u16; 64])
    requires { (length row.now ≡ 256) × (l + 16 ≤ 64) × (length numbers.old ≡ 64)
        × (length raw.old ≡ 64) }
    ensures numbers { Put (λ s. decided Rate.Five (five_at row.now s)) l numbers.old
        numbers.new 16 }
    ensures raw { Put (λ s. lead_of Rate.Five (five_at row.now s)) l raw.old
        raw.new 16 }
{
    for s in 0..16 {
        let c = choose_words::five(symbol(row, s), symbol(row, 16 + s));
        numbers[l + s] = c.number;
        raw[l + s] = c.lead;
    }
}

// m Barker symbols from a place.
// Neither it nor the two loops below are inlined: choose_recorders says why, at `decide`.
#[inline(never)]
pub fn barkers(bytes: &[i8], at: usize, m: usize, numbers: &mut [u8; 64], leads: &mut [u32; 64])
    requires { (m ≤ 64) × (at + 11 * m ≤ length bytes.now / 2) × (length numbers.old ≡ 64)
        × (length leads.old ≡ 64) }
    ensures numbers { DecidedAt Rate.One (byte_recording bytes.now) at m numbers.new }
    ensures leads { LeadsAt Rate.One (byte_recording bytes.now) at m leads.new }
{
    let mut row = [0i8; 352];
    let mut other = [0i8; 352];
    let mut raw = [0u16; 64];
    let mut l: usize = 0;
    while l < m {
        let count = choose_abreast::at_most_16(m - l);
        choose_abreast::take_in(bytes, 2 * (at + 11 * l), 22 * count, &mut row);
        choose_abreast::turn(&mut row, &mut other);
        sixteen_barkers(&row, l, numbers, &mut raw);
        l += 16;
    }
    choose_words::in_counts(&raw, leads);
}

// m symbols of 5.5 Mbit/s from a place.
#[inline(never)]
pub fn fives(bytes: &[i8], at: usize, m: usize, numbers: &mut [u8; 64], leads: &mut [u32; 64])
    requires { (m ≤ 64) × (at + 8 * m ≤ length bytes.now / 2) × (length numbers.old ≡ 64)
        × (length leads.old ≡ 64) }
    ensures numbers { DecidedAt Rate.Five (byte_recording bytes.now) at m numbers.new }
    ensures leads { LeadsAt Rate.Five (byte_recording bytes.now) at m leads.new }
{
    let mut row = [0i8; 256];
    let mut other = [0i8; 256];
    let mut raw = [0u16; 64];
    let mut l: usize = 0;
    while l < m {
        let count = choose_abreast::at_most_16(m - l);
        choose_abreast::take_in(bytes, 2 * (at + 8 * l), 16 * count, &mut row);
        choose_abreast::turn(&mut row, &mut other);
        sixteen_fives(&row, l, numbers, &mut raw);
        l += 16;
    }
    choose_words::in_counts(&raw, leads);
}

// m symbols of 11 Mbit/s from a place.
#[inline(never)]
pub fn elevens(bytes: &[i8], at: usize, m: usize, numbers: &mut [u8; 64], leads: &mut [u32; 64])
    requires { (m ≤ 64) × (at + 8 * m ≤ length bytes.now / 2) × (length numbers.old ≡ 64)
        × (length leads.old ≡ 64) }
    ensures numbers { DecidedAt Rate.Eleven (byte_recording bytes.now) at m numbers.new }
    ensures leads { LeadsAt Rate.Eleven (byte_recording bytes.now) at m leads.new }
{
    let mut row = [0i8; 256];
    let mut other = [0i8; 256];
    let mut z = [0i16; 256];
    let mut a = [0i16; 512];
    let mut l: usize = 0;
    while l < m {
        let count = choose_abreast::at_most_16(m - l);
        choose_abreast::take_in(bytes, 2 * (at + 8 * l), 16 * count, &mut row);
        choose_abreast::turn(&mut row, &mut other);
        choose_search::sixteen(&row, &mut z, &mut a, 16, l, numbers, leads);
        l += 16;
    }
}
