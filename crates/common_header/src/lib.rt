// The header's six octets: what they tell a reader, and those that a writer sends.
#![tactic(auto)]

ghost use Rattle.std.specs.Prelude.{◌≡◌, ◌&&◌, [], ◌∷◌, ◌-◌, ◌≤◌, ◌<◌, eqb, length, take, drop};
ghost use Rattle.rules_rates.specs.Rates.{is_code, rate_of, whole_octets};
ghost use Rattle.rules_bits.specs.Bits.{number_of, highest_first, octet_bits};
ghost use Rattle.rules_bits.specs.Crc.{crc_bits};
ghost use Rattle.rules_frame.specs.Frame.{sfd_of, goes_with, header_bits, sent_header};
ghost use Rattle.rules_calls.specs.Headers.{service_allowed, accepted_by, same_bits, fields_of, header_of};
ghost use Rattle.common_header.specs.Code.{octets_told};

use rules_calls::{Reader, Refusal, Told};
use rules_frame::Kind;
use rules_rates::Rate;

mod crc;

// Whether SERVICE is one that a rate allows: 0 or 4, and at 11 Mbit/s 128 or 132.
fn service_allowed(r: Rate, service: u8) -> bool
    ensures answer { result ≡ service_allowed r service }
{
    match service {
        0 | 4 => true,
        128 | 132 => matches!(r, Rate::Eleven),
        _ => false,
    }
}

// The octets that LENGTH and bit 7 say, whether or not a writer would send the two for them; 0 where there is none to
// take away.
pub fn octets_or_none(r: Rate, length: usize, seven: u8) -> usize
    requires { (length < 65536) × (seven < 2) }
    ensures answer { result ≡ whole_octets r length - seven }
{
    r.whole_octets(length).saturating_sub(seven as usize)
}

// The octets that LENGTH and bit 7 tell; none where a writer would send others for them, or where they are
// none or above 4,095.
fn octets_told(r: Rate, length: usize, seven: u8) -> Option<usize>
    requires { (length < 65536) × (seven < 2) }
    ensures answer { result ≡ octets_told r length seven }
{
    let n = octets_or_none(r, length, seven);
    if !rules_rates::is_payload(n) {
        return None;
    }
    if r.length_field(n) != length {
        return None;
    }
    if r.bit7(n) != seven {
        return None;
    }
    Some(n)
}

// Whether SIGNAL is a rate of this kind.
fn signal_allowed(k: Kind, code: u64) -> bool
    ensures answer { result ≡ (is_code code && goes_with k (rate_of code)) }
{
    match Rate::try_from(code) {
        Ok(rate) => common_kinds::goes_with(k, rate),
        Err(_) => false,
    }
}

// 13: whether a reader accepts SIGNAL.
fn signal_accepted(by: Reader, k: Kind, code: u64) -> bool
    ensures answer { result ≡ (accepted_by by).signals k code }
{
    match by {
        Reader::Ours => signal_allowed(k, code),
        Reader::Of1997 => matches!(code, Rate::CODE_ONE | Rate::CODE_TWO),
    }
}

// 14: whether a reader accepts SERVICE.
fn service_accepted(by: Reader, r: Rate, service: u8) -> bool
    ensures answer { result ≡ (accepted_by by).services r service }
{
    match by {
        Reader::Ours => service_allowed(r, service),
        Reader::Of1997 => service == 0,
    }
}

// What the three fields tell a reader: refusals 13, 14 and 15, in this order.
fn fields_of(by: Reader, k: Kind, signal: u8, service: u8, length: usize) -> Result<Told, Refusal>
    requires { length < 65536 }
    ensures answer { result ≡ fields_of (accepted_by by) k signal service length }
{
    let code = signal as u64;
    let rate = rules_rates::rate_of(code);
    if !signal_accepted(by, k, code) {
        return Err(Refusal::Signal { length });
    }
    if !service_accepted(by, rate, service) {
        return Err(Refusal::Service { length });
    }
    let Some(n) = octets_told(rate, length, service / 128 % 2) else {
        return Err(Refusal::Length { length });
    };
    let clock = service / 4 % 2 == 1;
    Ok(Told {
        rate,
        length,
        n,
        clock,
    })
}

// The SFD of a kind, as a number.
pub fn sfd_of(k: Kind) -> usize
    ensures answer { result ≡ sfd_of k }
{
    match k {
        Kind::Long => 0xF3A0,
        Kind::Short => 0x05CF,
    }
}

// The number of two octets, the lower first.
pub fn both(low: u8, high: u8) -> usize
    ensures answer { (result ≡ number_of (octet_bits (low ∷ high ∷ []))) × (result < 65536) }
{
    low as usize + 256 * (high as usize)
}

// Whether the SFD is the kind's.
fn sfd_right(k: Kind, sfd: [u8; 2]) -> bool
    ensures answer { result ≡ eqb (number_of (octet_bits sfd)) (sfd_of k) }
{
    both(sfd[0], sfd[1]) == sfd_of(k)
}

// Whether the last two octets of a header are the CRC of the four before them.
fn crc_right(header: [u8; 6]) -> bool
    ensures answer { result ≡ same_bits (crc_bits (take 32 (octet_bits header))) (drop 32 (octet_bits header)) }
{
    let crc = crc::crc_octets(header[0], header[1], header[2], header[3]);
    if crc[0] != header[4] {
        return false;
    }
    if crc[1] != header[5] {
        return false;
    }
    true
}

// The CRC worked out over a header's first four octets, as a number; and the one that is read in its last two.
pub fn crc_worked_out(header: [u8; 6]) -> usize
    ensures answer { result ≡ highest_first (crc_bits (take 32 (octet_bits header))) }
{
    let crc = crc::crc_octets(header[0], header[1], header[2], header[3]);
    crc::highest_first(crc[0], crc[1])
}

pub fn crc_read(header: [u8; 6]) -> usize
    ensures answer { result ≡ highest_first (drop 32 (octet_bits header)) }
{
    crc::highest_first(header[4], header[5])
}

// What the SFD and the header tell a reader: refusals 11 to 15, in this order.
pub fn header_of(by: Reader, k: Kind, sfd: [u8; 2], header: [u8; 6]) -> Result<Told, Refusal>
    ensures answer { result ≡ header_of (accepted_by by) k (octet_bits sfd) (octet_bits header) }
{
    if !sfd_right(k, sfd) {
        return Err(Refusal::Sfd);
    }
    if !crc_right(header) {
        return Err(Refusal::Crc);
    }
    fields_of(by, k, header[0], header[1], both(header[2], header[3]))
}

// The six octets of any SIGNAL, SERVICE and LENGTH.
pub fn octets_of(signal: u8, service: u8, micros: u16) -> [u8; 6]
    ensures answer { (octet_bits result ≡ header_bits signal service micros) × (length result ≡ 6) }
{
    let low = (micros % 256) as u8;
    let high = (micros / 256) as u8;
    let crc = crc::crc_octets(signal, service, low, high);
    [signal, service, low, high, crc[0], crc[1]]
}

// The header of a frame of n octets, the clock bit set or not.
pub fn header_octets(r: Rate, clock: bool, n: usize) -> [u8; 6]
    requires { n ≤ 4095 }
    ensures answer { (octet_bits result ≡ sent_header r clock n) × (length result ≡ 6) }
{
    let signal = r.code() as u8;
    let service = 4 * (clock as u8) + 128 * r.bit7(n);
    let micros = r.length_field(n) as u16;
    octets_of(signal, service, micros)
}
