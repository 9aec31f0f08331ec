// What one decided word comes to, at each rate: its phase, what its bits turned it by, its bits, and the octet of those
// of several words.
#![tactic(auto)]

ghost use Rattle.std.specs.Prelude.{◌≡◌, [], ◌∷◌, ◌+◌, ◌*◌, ◌%◌, ◌^◌, ◌≤◌, ◌<◌, length, take, drop};
ghost use Rattle.base.specs.Below.{Below};
ghost use Rattle.rules_rates.specs.Rates.{symbol_bits, octet_symbols};
ghost use Rattle.rules_symbols.specs.Words.{phase_of};
ghost use Rattle.rules_bits.specs.Bits.{number_of};
ghost use Rattle.hear_codes.specs.Codes.{grown_for, two_bits, four_bits, word_bits, packed};

use rules_rates::Rate;

// The phase of the word with number n: p of a Barker symbol, p1 of a CCK word.
pub fn phase(rate: Rate, n: u8) -> u8
    ensures answer { (result ≡ phase_of rate n % 4) × (result < 4) }
{
    match rate {
        Rate::One => n % 4,
        Rate::Two => n % 4,
        Rate::Five => n / 64 % 4,
        Rate::Eleven => n / 64 % 4,
    }
}

// How far symbol k behind a first one, which is even (0) or odd (1), grew from phase p to q for its bits: an odd CCK
// symbol grew by a half turn more.
pub fn grown(rate: Rate, first: u8, k: usize, p: u8, q: u8) -> u8
    requires { (first < 2) × (p < 4) × (q < 4) }
    ensures answer { (result ≡ grown_for rate (first + k) p q) × (result < 4) }
{
    match rate {
        Rate::One => (q + 4 - p) % 4,
        Rate::Two => (q + 4 - p) % 4,
        Rate::Five => (q + 4 + 2 * first - p + (2 * (k % 2)) as u8) % 4,
        Rate::Eleven => (q + 4 + 2 * first - p + (2 * (k % 2)) as u8) % 4,
    }
}

// The two bits of a growth, first in time the lower: 0, 2, 3, 1 for 0, 1, 2, 3.
fn two_bits(g: u8) -> u8
    requires { g < 4 }
    ensures answer { (result ≡ two_bits g) × (result < 4) }
{
    g / 2 + 2 * ((g + 1) / 2 % 2)
}

// The four bits of a word of 5.5 Mbit/s that grew by g.
fn four_bits(g: u8, n: u8) -> u8
    requires { g < 4 }
    ensures answer { (result ≡ four_bits g n) × (result < 16) }
{
    two_bits(g) + 4 * (n / 32 % 2) + 8 * (n / 2 % 2)
}

// The eight bits of a word of 11 Mbit/s that grew by g.
fn eight_bits(g: u8, n: u8) -> u8
    requires { g < 4 }
    ensures answer { result ≡ number_of (word_bits Rate.Eleven g n) }
{
    let p2 = 4 * (n / 32 % 2) + 8 * (n / 16 % 2);
    let p3 = 16 * (n / 8 % 2) + 32 * (n / 4 % 2);
    let p4 = 64 * (n / 2 % 2) + 128 * (n % 2);
    two_bits(g) + p2 + p3 + p4
}

// The bits of the word with number n that grew by g, as a number, first in time the lowest.
pub fn code(rate: Rate, g: u8, n: u8) -> u8
    requires { g < 4 }
    ensures answer { (result ≡ number_of (word_bits rate g n)) × (result < 2 ^ symbol_bits rate) }
{
    match rate {
        Rate::One => g / 2,
        Rate::Two => two_bits(g),
        Rate::Five => four_bits(g, n),
        Rate::Eleven => eight_bits(g, n),
    }
}

fn of_eight(a: u8, b: u8, c: u8, d: u8, e: u8, f: u8, g: u8, h: u8) -> u8
    requires { (a < 2) × (b < 2) × (c < 2) × (d < 2) × (e < 2) × (f < 2) × (g < 2) × (h < 2) }
    ensures answer { result ≡ packed 1 (a ∷ b ∷ c ∷ d ∷ e ∷ f ∷ g ∷ h ∷ []) }
{
    a + 2 * b + 4 * c + 8 * d + 16 * e + 32 * f + 64 * g + 128 * h
}

fn of_four(a: u8, b: u8, c: u8, d: u8) -> u8
    requires { (a < 4) × (b < 4) × (c < 4) × (d < 4) }
    ensures answer { result ≡ packed 2 (a ∷ b ∷ c ∷ d ∷ []) }
{
    a + 4 * b + 16 * c + 64 * d
}

fn of_two(a: u8, b: u8) -> u8
    requires { (a < 16) × (b < 16) }
    ensures answer { result ≡ packed 4 (a ∷ b ∷ []) }
{
    a + 16 * b
}

// The octets of the symbols from the k-th on: eight, four and two of them.
fn from_eight(c: &[u8; 64], k: usize) -> u8
    requires { (k + 8 ≤ 64) × (length c.now ≡ 64) × Below 2 c.now }
    ensures answer { result ≡ packed 1 (take 8 (drop k c.now)) }
{
    of_eight(
        c[k],
        c[k + 1],
        c[k + 2],
        c[k + 3],
        c[k + 4],
        c[k + 5],
        c[k + 6],
        c[k + 7],
    )
}

fn from_four(c: &[u8; 64], k: usize) -> u8
    requires { (k + 4 ≤ 64) × (length c.now ≡ 64) × Below 4 c.now }
    ensures answer { result ≡ packed 2 (take 4 (drop k c.now)) }
{
    of_four(c[k], c[k + 1], c[k + 2], c[k + 3])
}

fn from_two(c: &[u8; 64], k: usize) -> u8
    requires { (k + 2 ≤ 64) × (length c.now ≡ 64) × Below 16 c.now }
    ensures answer { result ≡ packed 4 (take 2 (drop k c.now)) }
{
    of_two(c[k], c[k + 1])
}

// The octet whose first symbol is the k-th.
pub fn octet(rate: Rate, c: &[u8; 64], k: usize) -> u8
    requires { (k + octet_symbols rate ≤ 64) × (length c.now ≡ 64) × Below (2 ^ symbol_bits rate) c.now }
    ensures answer { result ≡ packed (symbol_bits rate) (take (octet_symbols rate) (drop k c.now)) }
{
    match rate {
        Rate::One => from_eight(c, k),
        Rate::Two => from_four(c, k),
        Rate::Five => from_two(c, k),
        Rate::Eleven => c[k],
    }
}
