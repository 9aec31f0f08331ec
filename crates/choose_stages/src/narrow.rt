// Lanes of 16 bits, where chips are signed bytes or full chips: SSE2 has an instruction for the larger of two.
ghost use Rattle.std.specs.Prelude.{◌≡◌, ◌*◌, refl, ◌+ℤ◌, ◌*ℤ◌, ⊤};
ghost use Rattle.std.proofs.Common.{rules};
ghost use Rattle.base.specs.Whole.{Within};

use crate::lanes::Lane;

// A byte times a factor, and more.
fn scaled(b: i8, times: i8, more: i8) -> i16
    requires { Within 16 times × Within 4 more }
    ensures answer { result ≡ (times *ℤ b) +ℤ more }
    ensures byte { Within 128 b }
{
    times as i16 * b as i16 + more as i16
}

impl Lane for i16 {
    type Chip = i8;

    ghost value = { λ n. n };

    ghost chips = { λ row. row };

    ghost Recorded = { λ _. ⊤ };

    ghost most = { 128 };

    ghost limit = { 32767 };

    ghost units = { 1024 };

    ghost room = { Prim.search rules };

    ghost long = { λ _. refl };

    fn entered(row: &[i8], at: usize, times: i8, more: i8) -> i16 {
        scaled(row[at], times, more)
    }

    fn of(n: u8) -> i16 {
        n as i16
    }

    fn plus(self, other: i16) -> i16 {
        self + other
    }

    fn minus(self, other: i16) -> i16 {
        self - other
    }

    fn negated(self) -> i16 {
        -self
    }

    fn magnitude(self) -> i16 {
        self.abs()
    }

    fn below(self, other: i16) -> bool {
        self < other
    }

    fn larger(self, other: i16) -> i16 {
        self.max(other)
    }

    fn smaller(self, other: i16) -> i16 {
        self.min(other)
    }

    fn lower(self, other: i16, _top: i16) -> i16 {
        self.min(other)
    }

    fn credit(self) -> i16 {
        self.larger(-2 - self)
    }

    fn word(self, group: i16) -> u8 {
        let m = 15 - (self as u16 % 16 + 11) % 16;
        (16 * m + group as u16) as u8
    }

    fn lead(self, next: i16) -> u32 {
        ((self as u16 + 11) / 16 - (next as u16 + 11) / 16) as u32
    }
}
