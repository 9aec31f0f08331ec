// Why a read of a hard recording is refused: reading's own functions look for the refusal, and what it is about stands
// in what they heard. No octet of a payload is worked out.
ghost use Rattle.std.specs.Prelude.{◌≡◌, ℕ, ◌≤◌, ◌<◌, length, Ok};
ghost use Rattle.rules_rates.specs.Rates.{octets_read};
ghost use Rattle.rules_chips.specs.Chips.{hard_recording};
ghost use Rattle.rules_bits.specs.Bits.{octet_bits};
ghost use Rattle.rules_frame.specs.Frame.{front_chips, frame_chips};
ghost use Rattle.rules_calls.specs.Answers.{refusal_number, refusal_place};
ghost use Rattle.rules_reading.specs.Reading.{payload_phase, front_of, payload_reading};
ghost use Rattle.rules_why.specs.Why.{reason, service_left, length_for, reason_of, why_of};
ghost use Rattle.choose_recorded.specs.Recorded.{AllUsable};
ghost use Rattle.read_fronts.specs.Openings.{FrontKnown, Looks};
ghost use Rattle.small_calls.specs.Why.{header_shown, after_told};

use super::odd;
use choose_recorders::Recording;
use common_lines::Line;
use hear_blocks::Hearing;
use hear_parts::Part;
use read_fronts::{FrontHeard, Look, Opening};
use rules_calls::{Least, Reader, Refusal, Told};
use rules_frame::Kind;
use rules_rates::Rate;
use rules_why::Reason;

// A refusal in numbers, with what was expected and what was found.
fn refused(e: Refusal, expected: u64, found: u64) -> Reason
    ensures answer { result ≡ reason (refusal_number e) (refusal_place e) expected found }
{
    Reason {
        number: common_answers::number_of(e),
        place: common_answers::place_of(e),
        expected,
        found,
    }
}

// A good read: all four are 0.
fn good() -> Reason
    ensures answer { result ≡ reason 0 0 0 0 }
{
    Reason {
        number: 0,
        place: 0,
        expected: 0,
        found: 0,
    }
}

// 14: SERVICE with its allowed bits cleared.
fn service_left(r: Rate, service: u8) -> u8
    ensures answer { result ≡ service_left r service }
{
    let two = service - 4 * (service / 4 % 2);
    match r {
        Rate::One | Rate::Two | Rate::Five => two,
        Rate::Eleven => two - 128 * (service / 128 % 2),
    }
}

// 15: the LENGTH that the writer makes for the octets that a LENGTH and bit 7 say, 0 where those are none or above
// 4,095.
fn length_for(r: Rate, length: usize, seven: u8) -> usize
    requires { (length < 65536) × (seven < 2) }
    ensures answer { result ≡ length_for r (octets_read r length seven) }
{
    let n = common_header::octets_or_none(r, length, seven);
    if !rules_rates::is_payload(n) {
        return 0;
    }
    r.length_field(n)
}

// What the SFD and the header show for a refusal of theirs: 11 to 15.
fn of_header(kind: Kind, sfd: [u8; 2], header: [u8; 6], e: Refusal) -> Reason
    ensures answer { result ≡ header_shown kind (octet_bits sfd) (octet_bits header) e }
{
    let r = rules_rates::rate_of(header[0] as u64);
    match e {
        Refusal::Sfd => refused(
            e,
            common_header::sfd_of(kind) as u64,
            common_header::both(sfd[0], sfd[1]) as u64,
        ),
        Refusal::Crc => refused(
            e,
            common_header::crc_worked_out(header) as u64,
            common_header::crc_read(header) as u64,
        ),
        Refusal::Signal { .. } => refused(e, 0, header[0] as u64),
        Refusal::Service { .. } => refused(e, 0, service_left(r, header[1]) as u64),
        Refusal::Length { .. } => {
            let length = common_header::both(header[2], header[3]);
            let expected = length_for(r, length, header[1] / 128 % 2);
            refused(e, expected as u64, length as u64)
        }
        _ => refused(e, 0, 0),
    }
}

// The payload that a front tells of, in a recording that has it, with room for it: 9, then 10 over it.
fn of_chips(kind: Kind, chips: &[u8], told: Told, phase: u8) -> Reason
    requires { (told.n ≤ 4095) × (frame_chips kind told.rate told.n ≤ length chips.now)
        × (phase ≡ payload_phase kind (hard_recording chips.now)) × (phase < 4)
        × AllUsable (hard_recording chips.now) 0 (front_chips kind) }
    ensures answer { (number room : ℕ) → told.n ≤ room → result ≡ reason_of number kind chips.now
        (hard_recording chips.now) room
        (payload_reading kind told (hard_recording chips.now) room) }
{
    let from = common_kinds::front_chips(kind);
    let all = common_kinds::frame_chips(kind, told.rate, told.n);
    let length = told.length;
    if let Some(place) = Recording::Hard(chips).first_unusable(from, all) {
        return refused(Refusal::Unusable { place, length }, 0, chips[place] as u64);
    }
    match odd::odd_in_payload(chips, from, told.rate, told.n, phase) {
        Some(place) => refused(
            Refusal::OddGrowth { place, length },
            0,
            odd::growth_at(chips, place),
        ),
        None => good(),
    }
}

// What a front that told comes to: 16, 17, then 9 and 10 over the payload.
fn of_payload(kind: Kind, chips: &[u8], room: u64, told: Told, phase: u8) -> Reason
    requires { (front_of kind (hard_recording chips.now) ≡ Ok told)
        × (phase ≡ payload_phase kind (hard_recording chips.now)) × (phase < 4)
        × AllUsable (hard_recording chips.now) 0 (front_chips kind) }
    ensures answer { (number : ℕ) → result ≡
        after_told number kind chips.now room (Ok told) }
{
    let all = common_kinds::frame_chips(kind, told.rate, told.n);
    let length = told.length;
    if chips.len() < all {
        return refused(Refusal::Ends { length }, all as u64, chips.len() as u64);
    }
    if room < told.n as u64 {
        return refused(Refusal::OctetRoom { length }, told.n as u64, room);
    }
    of_chips(kind, chips, told, phase)
}

// What a front that was heard comes to: 10, 11 to 15, and then its payload.
fn of_front(kind: Kind, chips: &[u8], room: u64, known: FrontHeard) -> Reason
    requires { Looks kind (hard_recording chips.now) Look.Usable
        × FrontKnown kind (hard_recording chips.now) known }
    ensures answer { (number : ℕ) → result ≡ after_told number kind chips.now room
        (front_of kind (hard_recording chips.now)) }
{
    let Opening { front, line, .. } = read_fronts::told(Reader::Ours, kind, known);
    match front {
        Err(Refusal::OddGrowth { place, length }) => refused(
            Refusal::OddGrowth { place, length },
            0,
            odd::growth_at(chips, place),
        ),
        Err(e) => of_header(kind, known.sfd, known.header, e),
        Ok(told) => of_payload(kind, chips, room, told, line.phase),
    }
}

// Why a read of a hard recording with room for so many octets is refused. Room is any number.
pub fn why(kind: u64, chips: &[u8], room: u64) -> Reason
    ensures answer { result ≡ why_of kind chips.now room }
{
    if !common_kinds::is_kind(kind) {
        return refused(Refusal::NoKind, 0, kind);
    }
    let k = common_kinds::kind_of(kind);
    match read_fronts::look_at_front(Recording::Hard(chips), k) {
        Look::Shorter => refused(
            Refusal::ShorterThanFront,
            common_kinds::front_chips(k) as u64,
            chips.len() as u64,
        ),
        Look::Unusable(place) => refused(
            Refusal::Unusable { place, length: 0 },
            0,
            chips[place] as u64,
        ),
        Look::Usable => {
            let known = read_fronts::heard::hear_front(Recording::Hard(chips), k);
            of_front(k, chips, room, known)
        }
    }
}
