// The payload: refusal 17, and 9 and 10 over it.
ghost use Rattle.std.specs.Prelude.{◌≡◌, ◌*◌, ◌≤◌, length, replicate};
ghost use Rattle.rules_rates.specs.Rates.{octet_chips};
ghost use Rattle.rules_frame.specs.Frame.{front_chips, frame_chips};
ghost use Rattle.rules_reading.specs.Reading.{payload_odd, payload_reading, octets_after};
ghost use Rattle.rules_reading.specs.Leads.{front_leads, frame_leads, least_of};
ghost use Rattle.choose_recorders.specs.Rows.{taken_of};
ghost use Rattle.choose_recorded.specs.Recorded.{AllUsable};
ghost use Rattle.read_fronts.specs.Openings.{Opened};
ghost use Rattle.read_frames.specs.Payloads.{octets_heard};

use choose_recorders::Recording;
use common_lines::Line;
use hear_blocks::Hearing;
use hear_parts::Part;
use rules_calls::{Least, Reading, Refusal, Told};
use rules_frame::Kind;
use rules_rates::Rate;

// A payload heard: the place of its first symbol grown by 1 or 3 at 1 Mbit/s, and the frame's smallest lead.
#[derive(Clone, Copy)]
pub struct Payload {
    pub odd: Option<usize>,
    pub least: Least,
}

// The payload's octets into a buffer of zeros, or the place of its first symbol grown by 1 or 3 at 1 Mbit/s, and zeros.
fn hear_payload(
    rec: Recording,
    kind: Kind,
    rate: Rate,
    n: usize,
    line: Line,
    least: Least,
    octets: &mut [u8],
) -> Payload
    requires { (frame_chips kind rate n ≤ length (taken_of rec))
        × AllUsable (taken_of rec) (front_chips kind) (octet_chips rate * n)
        × (n ≤ length octets.old) × (Opened kind (taken_of rec) line)
        × (octets.old ≡ replicate (length octets.old) 0)
        × (least ≡ least_of (front_leads kind (taken_of rec))) }
    ensures answer { result.odd ≡ payload_odd kind rate n (taken_of rec.entry) }
    ensures least { result.least ≡ least_of (frame_leads kind rate n (taken_of rec.entry)) }
    ensures octets { octets.new ≡ octets_heard kind rate n (taken_of rec.entry) (length octets.old) result.odd }
{
    rec.is_countable();
    let from = common_kinds::front_chips(kind);
    // each symbol of the front is 11 chips
    let symbol = from / 11;
    let part = hear_parts::hear_octets(rec, rate, from, symbol, line, least, &mut octets[0..n]);
    let least = part.least;
    match part.heard.odd {
        Some(place) => {
            common_rows::fill(octets, 0);
            Payload {
                odd: Some(place),
                least,
            }
        }
        None => Payload { odd: None, least },
    }
}

// The payload that a front tells of, in a recording that has it, into a buffer of zeros: 17, then 9 and 10 over it. The
// smallest lead goes on from the front's.
pub fn read_payload(
    rec: Recording,
    kind: Kind,
    told: Told,
    line: Line,
    least: Least,
    octets: &mut [u8],
) -> Result<Reading, Refusal>
    requires { (told.n ≤ 4095)
        × (frame_chips kind told.rate told.n ≤ length (taken_of rec))
        × (Opened kind (taken_of rec) line)
        × (octets.old ≡ replicate (length octets.old) 0)
        × (least ≡ least_of (front_leads kind (taken_of rec))) }
    ensures answer { result ≡ payload_reading kind told (taken_of rec.entry) (length octets.old) }
    ensures octets { octets.new ≡ octets_after kind (taken_of rec.entry) (length octets.old) result }
{
    let Told {
        rate,
        length,
        n,
        clock: _,
    } = told;
    if octets.len() < n {
        return Err(Refusal::OctetRoom { length });
    }
    let from = common_kinds::front_chips(kind);
    let used = common_kinds::frame_chips(kind, rate, n);
    if let Some(place) = rec.first_unusable(from, used) {
        return Err(Refusal::Unusable { place, length });
    }
    let Payload { odd, least } = hear_payload(rec, kind, rate, n, line, least, octets);
    match odd {
        Some(place) => Err(Refusal::OddGrowth { place, length }),
        None => Ok(Reading { told, used, least }),
    }
}
