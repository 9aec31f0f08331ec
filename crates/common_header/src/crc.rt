// The CRC of a header's octets, bit by bit. The register's highest term is its lowest bit, as the first bit in time is
// an octet's.
ghost use Rattle.std.specs.Prelude.{◌≡◌, [], ◌∷◌, length};
ghost use Rattle.rules_bits.specs.Bits.{bits_of, highest_first, octet_bits};
ghost use Rattle.rules_bits.specs.Crc.{crc_step, remainder, crc_bits};

// x^12 + x^5 + 1.
const POLYNOMIAL: u16 = 0x8408;

// The register moves by one term; where the term that leaves is 1, the polynomial is added.
fn crc_step(r: u16) -> u16
    ensures answer { bits_of 16 result ≡ crc_step (bits_of 16 r) 0 }
{
    (r / 2) ^ (r % 2 * POLYNOMIAL)
}

// An octet's bits are added to the terms that they meet as these leave, all at once.
fn crc_octet(r: u16, x: u8) -> u16
    ensures answer { bits_of 16 result ≡ remainder (bits_of 16 r) (bits_of 8 x) }
{
    let mut r = r ^ x as u16;
    for _step in 0..8u8 {
        r = crc_step(r);
    }
    r
}

// The CRC of four octets, as two: the first bit sent is the first octet's lowest.
pub fn crc_octets(a: u8, b: u8, c: u8, d: u8) -> [u8; 2]
    ensures answer { (octet_bits result ≡ crc_bits (octet_bits (a ∷ b ∷ c ∷ d ∷ []))) × (length result ≡ 2) }
{
    let mut r = u16::MAX;
    for x in [a, b, c, d] {
        r = crc_octet(r, x);
    }
    (!r).to_le_bytes()
}

// Two octets of a CRC as a number: the first bit sent, the first octet's lowest, is the highest.
pub fn highest_first(first: u8, second: u8) -> usize
    ensures answer { result ≡ highest_first (octet_bits (first ∷ second ∷ [])) }
{
    u16::from_le_bytes([first, second]).reverse_bits() as usize
}
