// What a rate is: 1, 2, 5.5 or 11 Mbit/s, its code, the chips of an octet, LENGTH and bit 7.
#![tactic(auto)]

ghost use Rattle.std.specs.Prelude.{◌≡◌, ◌≤◌, ◌<◌, pos};
ghost use Rattle.rules_rates.specs.Rates.{
  code_of,
  is_code,
  rate_of,
  Coded,
  symbol_chips,
  octet_symbols,
  octet_chips,
  length_field,
  bit7,
  whole_octets,
  is_payload,
};

#[derive(Clone, Copy)]
pub enum Rate {
    One,
    Two,
    Five,
    Eleven,
}

impl Rate {
    pub const CODE_ONE: u64 = 10;

    pub const CODE_TWO: u64 = 20;

    pub const CODE_FIVE: u64 = 55;

    pub const CODE_ELEVEN: u64 = 110;

    pub const BARKER_CHIPS: usize = 11;

    pub const CCK_CHIPS: usize = 8;

    pub const OCTET_CHIPS_ONE: usize = 88;

    pub const OCTET_CHIPS_TWO: usize = 44;

    pub const OCTET_CHIPS_FIVE: usize = 16;

    pub const OCTET_CHIPS_ELEVEN: usize = 8;

    // SIGNAL, and the rate code.
    pub fn code(self) -> u64
        ensures answer { result ≡ code_of self }
    {
        match self {
            Rate::One => Rate::CODE_ONE,
            Rate::Two => Rate::CODE_TWO,
            Rate::Five => Rate::CODE_FIVE,
            Rate::Eleven => Rate::CODE_ELEVEN,
        }
    }

    pub fn symbol_chips(self) -> usize
        ensures answer { result ≡ symbol_chips self }
    {
        match self {
            Rate::One | Rate::Two => Rate::BARKER_CHIPS,
            Rate::Five | Rate::Eleven => Rate::CCK_CHIPS,
        }
    }

    pub fn octet_chips(self) -> usize
        ensures answer { result ≡ octet_chips self }
    {
        match self {
            Rate::One => Rate::OCTET_CHIPS_ONE,
            Rate::Two => Rate::OCTET_CHIPS_TWO,
            Rate::Five => Rate::OCTET_CHIPS_FIVE,
            Rate::Eleven => Rate::OCTET_CHIPS_ELEVEN,
        }
    }

    // The symbols of an octet.
    pub fn octet_symbols(self) -> usize
        ensures answer { result ≡ octet_symbols self }
    {
        match self {
            Rate::One => 8,
            Rate::Two => 4,
            Rate::Five => 2,
            Rate::Eleven => 1,
        }
    }

    // LENGTH of n octets, in microseconds.
    pub fn length_field(self, n: usize) -> usize
        requires { n ≤ 4095 }
        ensures answer { (result ≡ length_field self n) × (result < 65536) }
    {
        match self {
            Rate::One => 8 * n,
            Rate::Two => 4 * n,
            Rate::Five => (16 * n + 10) / 11,
            Rate::Eleven => (8 * n + 10) / 11,
        }
    }

    // Bit 7 of SERVICE for n octets.
    pub fn bit7(self, n: usize) -> u8
        requires { n ≤ 4095 }
        ensures answer { (result ≡ bit7 self n) × (result < 2) }
    {
        match self {
            Rate::One | Rate::Two | Rate::Five => 0,
            Rate::Eleven => (8 * n + 8 <= 11 * ((8 * n + 10) / 11)) as u8,
        }
    }

    // The octets of a LENGTH, before bit 7 is asked.
    pub fn whole_octets(self, length: usize) -> usize
        requires { length < 65536 }
        ensures answer { result ≡ whole_octets self length }
    {
        match self {
            Rate::One => length / 8,
            Rate::Two => length / 4,
            Rate::Five => length * 11 / 16,
            Rate::Eleven => length * 11 / 8,
        }
    }
}

// Whether n octets are a payload: 1 to 4,095.
pub fn is_payload(n: usize) -> bool
    ensures answer { result ≡ is_payload (pos n) }
{
    (1..=4095).contains(&n)
}

// Whether a number is a rate's code.
pub fn is_code(code: u64) -> bool
    ensures answer { result ≡ is_code code }
{
    matches!(
        code,
        Rate::CODE_ONE | Rate::CODE_TWO | Rate::CODE_FIVE | Rate::CODE_ELEVEN
    )
}

// The rate of a code; of a number that is none, 11 Mbit/s.
pub fn rate_of(code: u64) -> Rate
    ensures answer { result ≡ rate_of code }
{
    match code {
        Rate::CODE_ONE => Rate::One,
        Rate::CODE_TWO => Rate::Two,
        Rate::CODE_FIVE => Rate::Five,
        _ => Rate::Eleven,
    }
}

// A number that is no rate's code.
#[derive(Clone, Copy)]
pub struct UnknownRate(pub u64);

// The rate of a code.
impl TryFrom<u64> for Rate {
    type Error = UnknownRate;

    ghost try_from_gives = { Coded };

    fn try_from(code: u64) -> Result<Self, UnknownRate> {
        if is_code(code) {
            Ok(rate_of(code))
        } else {
            Err(UnknownRate(code))
        }
    }
}
