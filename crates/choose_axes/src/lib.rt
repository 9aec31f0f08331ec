// Counts of a symbol's chips, I and Q apart: arrays of chips by value to arrays of whole numbers by value. A recorder's
// chips are all of its own kind, so each takes its own variant apart, and in a loop over symbols the chips dissolve. Of
// hard chips full chips are counted, not 1024ths of one: in octets sixteen symbols go side by side.
#![tactic(auto)]

ghost use Rattle.std.specs.Prelude.{◌≡◌, T};
ghost use Rattle.rules_chips.specs.Chips.{counts_of};
ghost use Rattle.choose_axes.specs.Axes.{
  along,
  phase_on,
  counts_along,
  unit_of,
  units_along,
  soft_usable,
  octet_of,
  AllSoft,
};

use rules_chips::{Chip, Sample};

// One of the two numbers of a chip.
#[derive(Clone, Copy)]
pub enum Axis {
    I,
    Q,
}

// The octet of a chip of a hard recording: the inverse of `hard_chip`; 4 of a soft one.
fn octet_of(c: Chip) -> u8
    ensures answer { result ≡ octet_of c }
{
    match c {
        Chip::Lost => 4,
        Chip::Hard(p) => p,
        Chip::Soft(_) => 4,
    }
}

// The sample of a soft chip.
fn sample_of(c: Chip) -> Sample
    requires { T (soft_usable c) }
    ensures answer { c ≡ Chip.Soft result }
{
    match c {
        Chip::Lost => Sample { i: 0.0, q: 0.0 },
        Chip::Hard(_) => Sample { i: 0.0, q: 0.0 },
        Chip::Soft(s) => s,
    }
}

// The count of a soft chip on an axis.
fn soft_count(c: Chip, axis: Axis) -> i32
    requires { T (soft_usable c) }
    ensures answer { result ≡ along axis (counts_of c) }
{
    let s = sample_of(c);
    match axis {
        Axis::I => choose_counts::count(s.i),
        Axis::Q => choose_counts::count(s.q),
    }
}

// The counts of a symbol's soft chips on an axis.
pub fn soft_counts<const N: usize>(chips: [Chip; N], axis: Axis) -> [i32; N]
    requires { AllSoft N chips }
    ensures answer { result ≡ counts_along axis chips.entry }
{
    let mut out = [0i32; N];
    for k in 0..N {
        out[k] = soft_count(chips[k], axis);
    }
    out
}

// The phase of a chip of 1 on an axis.
fn phase_on(axis: Axis) -> u8
    ensures answer { result ≡ phase_on axis }
{
    match axis {
        Axis::I => 0,
        Axis::Q => 1,
    }
}

// The unit of a hard chip on an axis: a full chip is 1.
fn hard_unit(c: Chip, axis: Axis) -> i8
    ensures answer { result ≡ along axis (unit_of c) }
{
    let x = octet_of(c);
    let plus = phase_on(axis);
    (x == plus) as i8 - (x == plus + 2) as i8
}

// The units of a symbol's hard chips on an axis.
pub fn hard_units<const N: usize>(chips: [Chip; N], axis: Axis) -> [i8; N]
    ensures answer { result ≡ units_along axis chips.entry }
{
    let mut out = [0i8; N];
    for k in 0..N {
        out[k] = hard_unit(chips[k], axis);
    }
    out
}
