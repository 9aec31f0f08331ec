// Signed bytes, a full chip being 64, as numbers of 16 bits: eight symbols side by side.
ghost use Rattle.std.specs.Prelude.{◌≡◌, ◌*◌, pos};
ghost use Rattle.std.proofs.Common.{w16};
ghost use lib.Dec.{lit<};
ghost use Rattle.base.proofs.Whole.{fits_at};
ghost use Rattle.rules_choosing.specs.Keys.{larger, smaller};

use crate::{Number, Told};

impl Number for i16 {
    type Key = i16;

    type Lead = u16;

    ghost whole = { λ z. z };

    ghost most = { 128 };

    ghost holds = { λ key x. key ≡ pos x };

    ghost lead = { λ l. l };

    ghost larger_of = { larger };

    ghost smaller_of = { smaller };

    fn zero() -> i16 {
        0
    }

    fn key(self, w: u8, n: u8) -> i16 {
        let m = w as i16;
        (4 * m * self + m).abs() + ((3 * w - 1 - n) as i16)
    }

    fn larger(a: i16, b: i16) -> i16 {
        if a < b { b } else { a }
    }

    fn smaller(a: i16, b: i16) -> i16 {
        if a < b { a } else { b }
    }

    fn number_of(w: u8, key: i16) -> u8 {
        let m = 4 * (w as u16);
        (m - 1 - (key as u16) % m) as u8
    }

    fn lead_of(w: u8, first: i16, second: i16) -> u16 {
        let m = 4 * (w as u16);
        (first as u16) / m - (second as u16) / m
    }

    ghost adds = { λ a b h. fits_at w16 h (lit< tt) };

    ghost added = { λ a b r e. e };

    ghost takes = { λ a b h. fits_at w16 h (lit< tt) };

    ghost taken = { λ a b r e. e };
}

// A lead in 64ths of a full chip.
impl Told for u16 {
    ghost counts = { λ l. 16 * l };

    fn in_counts(self) -> u32 {
        16 * (self as u32)
    }
}
