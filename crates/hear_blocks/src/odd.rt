// The first symbol of a block that is grown by 1 or 3 at 1 Mbit/s.
ghost use Rattle.std.specs.Prelude.{◌≡◌, ℕ, ◌+◌, ◌*◌, ◌%◌, ◌^◌, ◌<◌, ◌≤◌, false, take, slice_index};
ghost use Rattle.rules_rates.specs.Rates.{symbol_chips};
ghost use Rattle.rules_reading.specs.Reading.{first_odd, odd_growth};

use rules_rates::Rate;

// Whether one of the first m growths may be 1 or 3: no says that none is.
fn any_odd(g: [u8; 64], m: usize) -> bool
    requires { m ≤ 64 }
    ensures answer { result ≡ false → (j : ℕ) → j < m → slice_index g j % 2 ≡ 0 }
{
    let mut any: u8 = 0;
    for l in 0..m {
        any = any | g[l];
    }
    any % 2 == 1
}

// The place of the first of them, symbol by symbol.
fn first_odd(place: usize, g: [u8; 64], m: usize) -> Option<usize>
    requires { (m ≤ 64) × (place + 11 * m < 2 ^ 64) }
    ensures answer { result ≡ first_odd place (take m g) }
{
    for l in 0..m {
        if g[l] % 2 == 1 {
            return Some(place + 11 * l);
        }
    }
    None
}

// The same, after the quick test.
fn odd_of_one(place: usize, g: [u8; 64], m: usize) -> Option<usize>
    requires { (m ≤ 64) × (place + 11 * m < 2 ^ 64) }
    ensures answer { result ≡ first_odd place (take m g) }
{
    if any_odd(g, m) {
        first_odd(place, g, m)
    } else {
        None
    }
}

// Of m symbols whose first chip is at a place; at the other rates a symbol may grow by anything.
pub fn odd_in(rate: Rate, place: usize, g: [u8; 64], m: usize) -> Option<usize>
    requires { (m ≤ 64) × (place + symbol_chips rate * m < 2 ^ 64) }
    ensures answer { result ≡ odd_growth rate place (take m g) }
{
    match rate {
        Rate::One => odd_of_one(place, g, m),
        Rate::Two | Rate::Five | Rate::Eleven => None,
    }
}
