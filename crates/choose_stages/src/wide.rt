// Lanes of 32 bits, where chips are counts. SSE2 has no instruction for the larger of two numbers of 32 bits, so a
// credit is made by its sign, and the smaller of two is what the larger leaves of their sum.
ghost use Rattle.std.specs.Prelude.{◌≡◌, cond, refl, pos, negsuc, ◌-ℤ◌};
ghost use Rattle.std.specs.Int.Signed.{lt_z};
ghost use Rattle.std.proofs.Common.{rules};
ghost use Rattle.base.specs.Whole.{Within};
ghost use Rattle.rules_choosing.specs.Scores.{RowWithin};

use crate::lanes::Lane;

// A number, or its complement where it is below 0.
fn ones(u: i32) -> i32
    requires { Within 524304 u }
    ensures answer { result ≡ cond (lt_z u (pos 0)) (negsuc 0 -ℤ u) u }
{
    if u < 0 { -1 - u } else { u }
}

// -1 where a number is below 0, else 0.
fn sign(u: i32) -> i32
    ensures answer { result ≡ cond (lt_z u (pos 0)) (negsuc 0) (pos 0) }
{
    if u < 0 { -1 } else { 0 }
}

impl Lane for i32 {
    type Chip = i32;

    ghost value = { λ n. n };

    ghost chips = { λ row. row };

    ghost Recorded = { λ row. RowWithin 8192 row };

    ghost most = { 8192 };

    ghost limit = { 1073741823 };

    ghost units = { 1 };

    ghost room = { Prim.search rules };

    ghost long = { λ _. refl };

    fn entered(row: &[i32], at: usize, times: i8, more: i8) -> i32 {
        times as i32 * row[at] + more as i32
    }

    fn of(n: u8) -> i32 {
        n as i32
    }

    fn plus(self, other: i32) -> i32 {
        self + other
    }

    fn minus(self, other: i32) -> i32 {
        self - other
    }

    fn negated(self) -> i32 {
        -self
    }

    fn magnitude(self) -> i32 {
        self.abs()
    }

    fn below(self, other: i32) -> bool {
        self < other
    }

    // In the order of `below`, so that one comparison serves both.
    fn larger(self, other: i32) -> i32 {
        if self < other { other } else { self }
    }

    fn smaller(self, other: i32) -> i32 {
        if self < other { self } else { other }
    }

    fn lower(self, other: i32, top: i32) -> i32 {
        self + other - top
    }

    fn credit(self) -> i32 {
        ones(self) + sign(self)
    }

    fn word(self, group: i32) -> u8 {
        let m = 15 - (self as u32 % 16 + 11) % 16;
        (16 * m + group as u32) as u8
    }

    fn lead(self, next: i32) -> u32 {
        (self as u32 + 11) / 16 - (next as u32 + 11) / 16
    }
}
