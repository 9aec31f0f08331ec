// Reading: recordings to payloads, with every refusal in its order.
#![tactic(auto)]

ghost use Rattle.std.specs.Prelude.{◌≡◌, true, ◌%◌, eqb, length, replicate};
ghost use Rattle.rules_chips.specs.Chips.{hard_recording, soft_recording, byte_recording};
ghost use Rattle.rules_calls.specs.Answers.{record_of};
ghost use Rattle.rules_calls.specs.Headers.{accepted_by};
ghost use Rattle.rules_reading.specs.Reading.{reading_by, reading_of, octets_after, octets_found};
ghost use Rattle.rules_reading.specs.Guides.{reading1997, octets1997};
ghost use Rattle.choose_recorders.specs.Rows.{taken_of};

use choose_recorders::Recording;
use rules_calls::{Reader, Reading, Record, Refusal};
use rules_frame::Kind;

pub mod payload;

// A recording of a kind and of any recorder, into a buffer of zeros, by who reads: 8, then 9 and 10 over the front, 11
// to 17, then 9 and 10 over the payload.
fn read_as(by: Reader, kind: Kind, rec: Recording, octets: &mut [u8]) -> Result<Reading, Refusal>
    requires { octets.old ≡ replicate (length octets.old) 0 }
    ensures answer { result ≡ reading_by (accepted_by by) kind (taken_of rec.entry) (length octets.old) }
    ensures octets { octets.new ≡ octets_after kind (taken_of rec.entry) (length octets.old) result }
{
    let opening = read_fronts::read_whole(by, rec, kind);
    match opening.front {
        Err(e) => Err(e),
        Ok(t) => payload::read_payload(rec, kind, t, opening.line, opening.least, octets),
    }
}

// A recording of any recorder, whose rows agree or not, by our own readers: 1, 7, and what comes after them. Octets
// past the payload, and all after a refusal, are 0.
fn read(kind: u64, agree: bool, rec: Recording, octets: &mut [u8]) -> Result<Reading, Refusal>
    ensures answer { result ≡ reading_of kind agree (taken_of rec.entry) (length octets.old) }
    ensures octets { octets.new ≡ octets_found kind agree (taken_of rec.entry) (length octets.old) }
{
    common_rows::fill(octets, 0);
    if !common_kinds::is_kind(kind) {
        return Err(Refusal::NoKind);
    }
    if !agree {
        return Err(Refusal::RowsDiffer);
    }
    let k = common_kinds::kind_of(kind);
    read_as(Reader::Ours, k, rec, octets)
}

// A hard recording: octets, 0 to 3 a phase, 4 lost, 5 to 255 unusable.
pub fn read_hard(kind: u64, chips: &[u8], octets: &mut [u8]) -> Record
    ensures answer { result ≡
        record_of (reading_of kind true (hard_recording chips.now) (length octets.old)) }
    ensures octets { octets.new ≡
        octets_found kind true (hard_recording chips.now) (length octets.old) }
{
    let reading = read(kind, true, Recording::Hard(chips), octets);
    common_answers::record_of(reading)
}

// A soft recording: two rows of f32, I and Q.
pub fn read_soft(kind: u64, i: &[f32], q: &[f32], octets: &mut [u8]) -> Record
    ensures answer { result ≡ record_of (reading_of kind (eqb (length i.now) (length q.now))
        (soft_recording i.now q.now) (length octets.old)) }
    ensures octets { octets.new ≡
        octets_found kind (eqb (length i.now) (length q.now))
        (soft_recording i.now q.now) (length octets.old) }
{
    let agree = i.len() == q.len();
    let reading = read(kind, agree, Recording::Soft { i, q }, octets);
    common_answers::record_of(reading)
}

// A byte recording: signed bytes, I and Q in turn.
pub fn read_bytes(kind: u64, bytes: &[i8], octets: &mut [u8]) -> Record
    ensures answer { result ≡ record_of (reading_of kind (eqb (length bytes.now % 2) 0)
        (byte_recording bytes.now) (length octets.old)) }
    ensures octets { octets.new ≡ octets_found kind (eqb (length bytes.now % 2) 0)
        (byte_recording bytes.now) (length octets.old) }
{
    let agree = bytes.len() % 2 == 0;
    let reading = read(kind, agree, Recording::Bytes(bytes), octets);
    common_answers::record_of(reading)
}

// A hard recording as a guide of 1997 reads it: long fronts, SIGNAL 10 or 20, SERVICE 0.
pub fn read_1997(chips: &[u8], octets: &mut [u8]) -> Record
    ensures answer { result ≡
        record_of (reading1997 (hard_recording chips.now) (length octets.old)) }
    ensures octets { octets.new ≡
        octets1997 (hard_recording chips.now) (length octets.old) }
{
    common_rows::fill(octets, 0);
    let reading = read_as(Reader::Of1997, Kind::Long, Recording::Hard(chips), octets);
    common_answers::record_of(reading)
}
