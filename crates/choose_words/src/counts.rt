// Counts, 1024ths of a full chip. Their keys are f32, which has every whole number up to 2^24: one instruction compares
// four of them, where i32 need several.
ghost use Rattle.std.specs.Prelude.{◌≡◌, ◌*◌, ◌-◌, ◌/◌, ◌%◌, ◌<◌, ◌≤◌, T, nat_abs};
ghost use Rattle.std.specs.Int.Signed.{non_neg};
ghost use Rattle.std.specs.Float.{binary32};
ghost use Rattle.std.specs.Float.Ieee.{in_signed, to_signed};
ghost use Rattle.std.proofs.Common.{w32};
ghost use lib.Dec.{lit<};
ghost use Rattle.base.proofs.Whole.{fits_at};
ghost use Rattle.choose_words.specs.Floats.{larger_float, smaller_float, holds_float};

use crate::Number;

// The key that an f32 holds, which has to be a whole number, not negative and below 2^23.
fn key_of(x: f32) -> u32
    requires { T (in_signed binary32 31 x) × T (non_neg (to_signed 31 x)) × (nat_abs (to_signed 31 x) < 8388608) }
    ensures { result ≡ nat_abs (to_signed 31 x) }
{
    (x as i32) as u32
}

// The number of the word that has a key.
fn number_of(w: u8, key: u32) -> u8
    requires { (0 < w) × (w ≤ 4) }
    ensures { result ≡ 4 * w - 1 - key % (4 * w) }
{
    let m = 4 * (w as u32);
    (m - 1 - key % m) as u8
}

// The lead of the word that has the first of two keys.
fn lead_of(w: u8, first: u32, second: u32) -> u32
    requires { (0 < w) × (w ≤ 4) × (second ≤ first) }
    ensures { result ≡ first / (4 * w) - second / (4 * w) }
{
    let m = 4 * (w as u32);
    first / m - second / m
}

impl Number for i32 {
    type Key = f32;

    type Lead = u32;

    ghost whole = { λ z. z };

    ghost most = { 8192 };

    ghost holds = { holds_float };

    ghost lead = { λ l. l };

    ghost larger_of = { larger_float };

    ghost smaller_of = { smaller_float };

    fn zero() -> i32 {
        0
    }

    fn key(self, w: u8, n: u8) -> f32 {
        let m = w as i32;
        let key = (4 * m * self + m).abs() + ((3 * w - 1 - n) as i32);
        key as f32
    }

    fn larger(a: f32, b: f32) -> f32 {
        if a < b { b } else { a }
    }

    fn smaller(a: f32, b: f32) -> f32 {
        if a < b { a } else { b }
    }

    fn number_of(w: u8, key: f32) -> u8 {
        number_of(w, key_of(key))
    }

    fn lead_of(w: u8, first: f32, second: f32) -> u32 {
        lead_of(w, key_of(first), key_of(second))
    }

    ghost adds = { λ a b h. fits_at w32 h (lit< tt) };

    ghost added = { λ a b r e. e };

    ghost takes = { λ a b h. fits_at w32 h (lit< tt) };

    ghost taken = { λ a b r e. e };
}
