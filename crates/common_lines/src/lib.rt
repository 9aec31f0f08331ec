// A line: what stands between two octets of a frame. Octets scrambled and back, pairs of bits to growths.
#![tactic(auto)]

ghost use Rattle.std.specs.Prelude.{◌≡◌, ◌/◌, ◌%◌, ◌<◌};
ghost use Rattle.rules_bits.specs.Bits.{bits_of, number_of};
ghost use Rattle.rules_bits.specs.Growths.{growth};
ghost use Rattle.rules_bits.specs.Scrambler.{scramble, descramble};
ghost use Rattle.rules_bits.specs.Code.{past_of, pairs_of};

// What stands between two octets of a frame: the last eight bits sent or received as an octet, the first
// in time the lowest, and the phase of the last symbol.
#[derive(Clone, Copy)]
pub struct Line {
    pub past: u8,
    pub phase: u8,
}

// An octet scrambled after the one sent before it: the outputs 4 and 7 back come from the octet before,
// then from this one.
pub fn scramble_octet(past: u8, x: u8) -> u8
    ensures answer { bits_of 8 result ≡ scramble (past_of past) (bits_of 8 x) }
{
    let t = x ^ (past / 16) ^ (past / 2);
    t ^ (t % 16 * 16) ^ (t % 2 * 128)
}

// And back: the octets are what was received.
pub fn descramble_octet(past: u8, x: u8) -> u8
    ensures answer { result ≡ number_of (descramble (past_of past) (bits_of 8 x)) }
{
    x ^ (past / 16) ^ (past / 2) ^ (x % 16 * 16) ^ (x % 2 * 128)
}

// The four pairs of an octet's bits, each with the first in time the higher: what a pair stands for directly.
pub fn pairs(o: u8) -> u8
    ensures answer { result ≡ pairs_of o }
{
    (o & 0x55) * 2 + (o & 0xAA) / 2
}

// How far two bits turn the phase: 00, 01, 10, 11.
const GROWTHS: [u8; 4] = [0, 1, 3, 2];

// The growth of the lowest of the pairs n.
pub fn growth(n: u8) -> u8
    ensures answer { (result ≡ growth (n / 2 % 2) (n % 2)) × (result < 4) }
{
    GROWTHS[(n % 4) as usize]
}
