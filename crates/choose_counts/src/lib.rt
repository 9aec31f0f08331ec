// Chips looked at and counted: whether a sample is usable, its signed count, and what an octet is.
#![tactic(auto)]

ghost use Rattle.std.specs.Prelude.{◌≡◌, T};
ghost use Rattle.rules_chips.specs.Floats as floats;
ghost use Rattle.rules_chips.specs.Floats.{count_of};
ghost use Rattle.rules_chips.specs.Chips.{usable_sample, hard_chip};

use rules_chips::{Chip, Sample};

// Whether x is a number from -8 to 8. Both tests are made, so that many numbers are looked at side by side.
// promise: Usable exactly where no NaN, no infinity and at most 8 in magnitude, for every f32
// rule: 2.3
// code: usable_sample
pub fn usable(x: f32) -> bool
    ensures answer { result ≡ floats.usable x }
{
    (x >= -8.0) & (x <= 8.0)
}

// The whole number nearest to 1024 times x, ties to the even one.
// From 8192 to 16384 an f32 is 1/1024 from the next, so the sum with 12288 is rounded just as the
// count is, and the bit patterns there go up by one from each value to the next.
pub fn count(x: f32) -> i32
    requires { T (floats.usable x) }
    ensures answer { result ≡ count_of x }
{
    let b: u32 = f32::to_bits(x + 12288.0);
    (b as i32) - 0x4640_0000
}

// Whether both I and Q are usable.
pub fn usable_sample(s: Sample) -> bool
    ensures answer { result ≡ usable_sample s }
{
    usable(s.i) & usable(s.q)
}

// What an octet of a hard recording is: 4 the mark for no chip, any other a phase or no phase.
pub fn hard_chip(x: u8) -> Chip
    ensures answer { result ≡ hard_chip x }
{
    if x == 4 { Chip::Lost } else { Chip::Hard(x) }
}
