// Leaves of reading, exported so that bench/ times them beside plain C. No part of the board's interface.
#![tactic(auto)]

ghost use Rattle.std.specs.Prelude.{◌≡◌, cond, ◌≤◌, leb, length};
ghost use Rattle.rules_rates.specs.Rates.{symbol_chips};
ghost use Rattle.rules_chips.specs.Floats.{count_of};
ghost use Rattle.rules_chips.specs.Chips.{soft_recording};
ghost use Rattle.choose_recorders.specs.Rows.{taken_of};
ghost use Rattle.bench_leaves.specs.Leaves.{first_word, decided_soft, last_word, decided_last, CountsRow};

use choose_recorders::Recording;
use rules_rates::Rate;

// The count of x; 0 of an x that is not usable.
fn count_of(x: f32) -> i32
    ensures answer { result ≡ count_of x }
{
    if choose_counts::usable(x) {
        choose_counts::count(x)
    } else {
        0
    }
}

// The counts of a row of f32, as far as both rows go.
#[unsafe(no_mangle)]
pub extern "C" fn timed_count(xs: &[f32], counts: &mut [i32])
    ensures counts { CountsRow xs.now counts.old counts.new }
{
    let n = xs.len().min(counts.len());
    for k in 0..n {
        counts[k] = count_of(xs[k]);
    }
}

// The number of the word that the first symbol of soft rows is decided as, where all its chips are usable.
fn first_word(r: Rate, i: &[f32], q: &[f32]) -> u64
    requires { symbol_chips r ≤ length (soft_recording i.now q.now) }
    ensures answer { result ≡ first_word r (soft_recording i.now q.now) }
{
    let rec = Recording::Soft { i, q };
    if let Some(_) = rec.first_unusable(0, r.symbol_chips()) {
        return 0;
    }
    let mut numbers = [0u8; 64];
    let mut leads = [0u32; 64];
    rec.decide(r, 0, 1, &mut numbers, &mut leads);
    u64::from(numbers[0])
}

// The number of the word that the first symbol of soft rows is decided as.
#[unsafe(no_mangle)]
pub extern "C" fn timed_decide(rate: u64, i: &[f32], q: &[f32]) -> u64
    ensures answer { result ≡ decided_soft rate i.now q.now }
{
    if !rules_rates::is_code(rate) {
        return 0;
    }
    let r = rules_rates::rate_of(rate);
    let rec = Recording::Soft { i, q };
    if rec.chip_count() < r.symbol_chips() {
        return 0;
    }
    first_word(r, i, q)
}

// The number of the word that the last of 64 symbols is decided as, where all their chips are usable.
fn last_word(rec: Recording) -> u64
    requires { 512 ≤ length (taken_of rec) }
    ensures answer { result ≡ last_word (taken_of rec.entry) }
{
    if let Some(_) = rec.first_unusable(0, 512) {
        return 0;
    }
    let mut numbers = [0u8; 64];
    let mut leads = [0u32; 64];
    rec.decide(Rate::Eleven, 0, 64, &mut numbers, &mut leads);
    u64::from(numbers[63])
}

// The same; 0 of fewer than 512 chips.
fn last_or_none(rec: Recording) -> u64
    ensures answer { result ≡ cond (leb 512 (length (taken_of rec.entry))) (last_word (taken_of rec.entry)) 0 }
{
    if rec.chip_count() < 512 {
        return 0;
    }
    last_word(rec)
}

// The number of the word that the last of the first 64 symbols of 11 Mbit/s is decided as.
#[unsafe(no_mangle)]
pub extern "C" fn timed_eleven(
    recorder: u64,
    octets: &[u8],
    bytes: &[i8],
    i: &[f32],
    q: &[f32],
) -> u64
    ensures answer { result ≡
        decided_last recorder octets.now bytes.now i.now q.now }
{
    match recorder {
        0 => last_or_none(Recording::Hard(octets)),
        1 => last_or_none(Recording::Soft { i, q }),
        2 => last_or_none(Recording::Bytes(bytes)),
        _ => 0,
    }
}
