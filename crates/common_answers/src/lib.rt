// The answers of the calls as numbers: for each case of an enum its number and values.
#![tactic(auto)]

use rules_calls::{Frame, Reading, Record, Refusal, Written};
// the type of a member that is passed over: a crate must know the types of what it takes apart
ghost use Rattle.std.specs.Prelude.{◌≡◌};
ghost use Rattle.rules_calls.specs.Answers.{refusal_number, refusal_place, refusal_length, written_of, record_of};

use rules_frame::Kind;

// The number of a refusal.
pub fn number_of(e: Refusal) -> u64
    ensures answer { result ≡ refusal_number e }
{
    match e {
        Refusal::NoKind => 1,
        Refusal::NoRate => 2,
        Refusal::ShortRate => 3,
        Refusal::PayloadSize => 4,
        Refusal::NoPhase => 5,
        Refusal::ChipRoom => 6,
        Refusal::RowsDiffer => 7,
        Refusal::ShorterThanFront => 8,
        Refusal::Unusable { .. } => 9,
        Refusal::OddGrowth { .. } => 10,
        Refusal::Sfd => 11,
        Refusal::Crc => 12,
        Refusal::Signal { .. } => 13,
        Refusal::Service { .. } => 14,
        Refusal::Length { .. } => 15,
        Refusal::Ends { .. } => 16,
        Refusal::OctetRoom { .. } => 17,
    }
}

// A place, 0 but for 9 and 10.
pub fn place_of(e: Refusal) -> u64
    ensures answer { result ≡ refusal_place e }
{
    match e {
        Refusal::Unusable { place, .. } | Refusal::OddGrowth { place, .. } => place as u64,
        _ => 0,
    }
}

// LENGTH, where the refusal tells it.
pub fn length_of(e: Refusal) -> u64
    ensures answer { result ≡ refusal_length e }
{
    match e {
        Refusal::Unusable { length, .. }
        | Refusal::OddGrowth { length, .. }
        | Refusal::Signal { length }
        | Refusal::Service { length }
        | Refusal::Length { length }
        | Refusal::Ends { length }
        | Refusal::OctetRoom { length } => length as u64,
        _ => 0,
    }
}

// The writer's answer.
pub fn written_of(w: Result<Frame, Refusal>) -> Written
    ensures answer { result ≡ written_of w }
{
    match w {
        Err(e) => Written {
            number: number_of(e),
            chips: 0,
        },
        Ok(frame) => Written {
            number: 0,
            chips: frame.chips as u64,
        },
    }
}

// A reader's answer.
pub fn record_of(g: Result<Reading, Refusal>) -> Record
    ensures answer { result ≡ record_of g }
{
    match g {
        Err(e) => Record {
            number: number_of(e),
            place: place_of(e),
            rate: 0,
            length: length_of(e),
            n: 0,
            used: 0,
            clock: 0,
            lead: 0,
            symbol: 0,
        },
        Ok(Reading { told, used, least }) => Record {
            number: 0,
            place: 0,
            rate: told.rate.code(),
            length: told.length as u64,
            n: told.n as u64,
            used: used as u64,
            clock: told.clock as u64,
            lead: least.lead as u64,
            symbol: least.symbol as u64,
        },
    }
}
