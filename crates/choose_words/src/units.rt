// Full chips: a hard recording's chips in octets, sixteen symbols side by side.
ghost use Rattle.std.specs.Prelude.{◌≡◌, ◌*◌};
ghost use Rattle.std.proofs.Common.{w8};
ghost use lib.Dec.{lit<};
ghost use Rattle.base.proofs.Whole.{fits_at};
ghost use Rattle.rules_choosing.specs.Keys.{bigger, lesser};

use crate::{Number, Told};

impl Number for i8 {
    type Key = u8;

    type Lead = u8;

    ghost whole = { λ z. z };

    ghost most = { 1 };

    ghost holds = { λ key x. key ≡ x };

    ghost lead = { λ l. l };

    ghost larger_of = { bigger };

    ghost smaller_of = { lesser };

    fn zero() -> i8 {
        0
    }

    fn key(self, w: u8, n: u8) -> u8 {
        if self < 0 {
            4 * w * ((-self) as u8) + (2 * w - 1 - n)
        } else {
            4 * w * (self as u8) + (4 * w - 1 - n)
        }
    }

    fn larger(a: u8, b: u8) -> u8 {
        if a < b { b } else { a }
    }

    fn smaller(a: u8, b: u8) -> u8 {
        if a < b { a } else { b }
    }

    fn number_of(w: u8, key: u8) -> u8 {
        4 * w - 1 - key % (4 * w)
    }

    fn lead_of(w: u8, first: u8, second: u8) -> u8 {
        first / (4 * w) - second / (4 * w)
    }

    ghost adds = { λ a b h. fits_at w8 h (lit< tt) };

    ghost added = { λ a b r e. e };

    ghost takes = { λ a b h. fits_at w8 h (lit< tt) };

    ghost taken = { λ a b r e. e };
}

// A lead in full chips.
impl Told for u8 {
    ghost counts = { λ l. 1024 * l };

    fn in_counts(self) -> u32 {
        1024 * (self as u32)
    }
}
