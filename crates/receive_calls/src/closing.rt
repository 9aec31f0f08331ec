// What a receiver's numbers tell at close.
ghost use Rattle.std.specs.Prelude.{◌≡◌, List, ℕ, ◌≤◌, length, replicate, Err};
ghost use Rattle.rules_calls.specs.Answers.{record_of};
ghost use Rattle.rules_receiving.specs.Receivers.{Going};
ghost use Rattle.rules_receiving.specs.Calls.{kept_record, not_open, ReadsAll};

use rules_calls::{Least, Reading, Record, Refusal, Told};
use rules_frame::Kind;
use rules_rates::Rate;
use rules_receiving::{Ear, Progress};

// A refusal, and zeros.
pub fn refuse(e: Refusal, octets: &mut [u8]) -> Record
    ensures answer { result ≡ record_of (Err e) }
    ensures octets { octets.new ≡ replicate (length octets.old) 0 }
{
    common_rows::fill(octets, 0);
    common_answers::record_of(Err(e))
}

// A receiver whose front told: 16, 17, 9, 10, or the whole record.
pub fn tell_payload(p: Progress, octets: &mut [u8]) -> Record
    requires { p.n ≤ 4095 }
    ensures answer { (kind : ℕ) (fed hold preamble header : List ℕ) → p.status ≡ 2
        → Going kind (length octets.old) fed p hold preamble header octets.old
        → ReadsAll kind (length octets.old) fed result octets.new }
    ensures other { result.number ≡ 20 → ⊥ }
{
    let length = p.length;
    let kind = common_kinds::kind_of(p.kind);
    let rate = rules_rates::rate_of(p.rate);
    let all = common_kinds::frame_chips(kind, rate, p.n);
    if p.count < all {
        return refuse(Refusal::Ends { length }, octets);
    }
    if p.room < p.n {
        return refuse(Refusal::OctetRoom { length }, octets);
    }
    if p.bad != 0 {
        return refuse(
            Refusal::Unusable {
                place: p.bad - 1,
                length,
            },
            octets,
        );
    }
    if p.odd != 0 {
        return refuse(
            Refusal::OddGrowth {
                place: p.odd - 1,
                length,
            },
            octets,
        );
    }
    Record {
        number: 0,
        place: 0,
        rate: p.rate,
        length: length as u64,
        n: p.n as u64,
        used: all as u64,
        clock: p.clock,
        lead: p.ear.lead as u64,
        symbol: p.ear.symbol as u64,
    }
}

// A refusal that stays, from its numbers, and zeros.
pub fn kept(p: Progress, octets: &mut [u8]) -> Record
    ensures answer { result ≡ kept_record p }
    ensures octets { octets.new ≡ replicate (length octets.old) 0 }
{
    common_rows::fill(octets, 0);
    Record {
        number: p.number,
        place: p.place as u64,
        rate: 0,
        length: p.length as u64,
        n: 0,
        used: 0,
        clock: 0,
        lead: 0,
        symbol: 0,
    }
}

// The record of a close that is refused.
pub fn not_open() -> Record
    ensures answer { result ≡ not_open }
{
    Record {
        number: 20,
        place: 0,
        rate: 0,
        length: 0,
        n: 0,
        used: 0,
        clock: 0,
        lead: 0,
        symbol: 0,
    }
}
