// The numbers that sixteen symbols abreast are decided in, of any width.
ghost use Rattle.std.specs.Prelude.{◌≡◌, List, ℕ, ℤ, ◌+◌, ◌-◌, ◌*◌, ◌/◌, ◌≤◌, ◌<◌, T, length, get_or, pos, neg_ℤ, nat_abs};
ghost use Rattle.std.specs.Prelude.{◌+ℤ◌, ◌-ℤ◌, ◌*ℤ◌};
ghost use Rattle.std.specs.Int.Signed.{lt_z, non_neg};
ghost use Rattle.base.specs.Whole.{Within};
ghost use Rattle.rules_choosing.specs.Keys.{larger, smaller};
ghost use Rattle.choose_walsh.specs.Turns.{credit};
ghost use Rattle.choose_walsh.specs.Search.{group_of, word_of_key};

pub trait Lane: Copy {
    // a number of a row of chips
    type Chip: Copy;

    // the whole number that it is
    ghost value: { Self → ℤ };

    // the numbers of a row of chips, and what is asked of them
    ghost chips: { List Self.Chip → List ℤ };

    ghost Recorded: { List Self.Chip → Type 0 };

    // they are from -most to most, and all that is made of them is from -limit to limit
    ghost most: { ℕ };

    ghost limit: { ℕ };

    // so many counts at most are one of a row's numbers
    ghost units: { ℕ };

    // A number of a row times a factor, and more.
    fn entered(row: &[Self::Chip], at: usize, times: i8, more: i8) -> Self
        requires { Recorded row.now × (at < length row.now) × Within 16 times × Within 4 more }
        ensures answer { value result ≡ (times *ℤ get_or (chips row.now) at (pos 0)) +ℤ more }
        ensures small { Within most (get_or (chips row.now) at (pos 0)) };

    // A small number.
    fn of(n: u8) -> Self
        ensures answer { value result ≡ pos n };

    fn plus(self, other: Self) -> Self
        requires { Within limit (value self +ℤ value other) }
        ensures answer { value result ≡ value self +ℤ value other };

    fn minus(self, other: Self) -> Self
        requires { Within limit (value self -ℤ value other) }
        ensures answer { value result ≡ value self -ℤ value other };

    fn negated(self) -> Self
        requires { Within limit (value self) }
        ensures answer { value result ≡ neg_ℤ (value self) };

    fn magnitude(self) -> Self
        requires { Within limit (value self) }
        ensures answer { value result ≡ pos (nat_abs (value self)) };

    fn below(self, other: Self) -> bool
        ensures answer { result ≡ lt_z (value self) (value other) };

    fn larger(self, other: Self) -> Self
        ensures answer { value result ≡ larger (value self) (value other) };

    fn smaller(self, other: Self) -> Self
        ensures answer { value result ≡ smaller (value self) (value other) };

    // The smaller of two whose larger is known.
    fn lower(self, other: Self, top: Self) -> Self
        requires { Within limit (value self) × Within limit (value other)
            × (value top ≡ larger (value self) (value other)) }
        ensures answer { value result ≡ smaller (value self) (value other) };

    // What a number adds to the magnitude of y: of a sum and a difference the larger, the second two places behind.
    fn credit(self) -> Self
        requires { Within (4 * (16 * most + 4)) (value self) }
        ensures answer { value result ≡ credit (value self) };

    // The number of the word that has a key, in a group.
    fn word(self, group: Self) -> u8
        requires { T (non_neg (value self)) × (group_of (value group) < 16) }
        ensures answer { result ≡ word_of_key (value self) (group_of (value group)) };

    // What a key is ahead of another by, in scores.
    fn lead(self, next: Self) -> u32
        requires { T (non_neg (value self)) × T (non_neg (value next)) × (nat_abs (value next) ≤ nat_abs (value self)) }
        ensures answer { result ≡ (nat_abs (value self) + 11) / 16 - (nat_abs (value next) + 11) / 16 }
        ensures small { result * units < 4294967296 };

    // four butterflies and a key have room
    ghost room: { 8 * (16 * most + 4) + 7 ≤ limit };

    // a row of chips has a number for each
    ghost long: { (row : List Self.Chip) → length (chips row) ≡ length row };
}
