// A front heard: SYNC, the SFD and the header, to their end, with the smallest lead of their symbols.
ghost use Rattle.std.specs.Prelude.{◌≡◌, ◌+◌, ◌≤◌, length, take, drop};
ghost use Rattle.rules_frame.specs.Frame.{front_chips};
ghost use Rattle.rules_reading.specs.Leads.{least_of};
ghost use Rattle.choose_recorders.specs.Rows.{taken_of};
ghost use Rattle.choose_recorded.specs.Recorded.{AllUsable};
ghost use Rattle.read_fronts.specs.Openings.{
  sync_octets,
  preamble_octets,
  preamble_leads,
  PreambleLine,
  PreambleKnown,
  FrontKnown,
};

use super::{FrontHeard, Preamble};
use choose_recorders::Recording;
use common_lines::Line;
use hear_blocks::Hearing;
use hear_parts::Part;
use rules_calls::Least;
use rules_frame::Kind;
use rules_rates::Rate;

// How many octets SYNC and the SFD are.
fn preamble_octets(kind: Kind) -> usize
    ensures answer { result ≡ sync_octets kind + 2 }
{
    match kind {
        Kind::Long => 18,
        Kind::Short => 9,
    }
}

// The SFD's octets, those behind SYNC.
fn behind_sync(kind: Kind, preamble: [u8; 18]) -> [u8; 2]
    ensures answer { result ≡ take 2 (drop (sync_octets kind) preamble) }
{
    match kind {
        Kind::Long => [preamble[16], preamble[17]],
        Kind::Short => [preamble[7], preamble[8]],
    }
}

// SYNC and the SFD, heard to their end into a row. The first block of 64 symbols is decided before the line starts: its
// first symbol is the reference.
fn hear_sync(rec: Recording, kind: Kind, octets: &mut [u8]) -> Part
    requires { (front_chips kind ≤ length (taken_of rec))
        × AllUsable (taken_of rec) 0 (front_chips kind)
        × (length octets.old ≡ 18) }
    ensures answer { PreambleLine kind (taken_of rec.entry) result.heard }
    ensures least { result.least ≡ least_of (preamble_leads kind (taken_of rec.entry)) }
    ensures octets { take (sync_octets kind + 2) octets.new ≡ preamble_octets kind (taken_of rec.entry) }
{
    let mut numbers = [0u8; 64];
    let mut leads = [0u32; 64];
    rec.decide(Rate::One, 0, 64, &mut numbers, &mut leads);
    // the first symbol serves only as reference: it counts as grown by 0 from its own phase
    let line = common_kinds::first_line(kind, numbers[0]);
    let first = hear_blocks::hear(Rate::One, 0, 0, line, numbers, 8, octets);
    let least = hear_blocks::least::least_of(&leads, 64);
    let count = preamble_octets(kind);
    let rest = hear_parts::hear_octets(
        rec,
        Rate::One,
        704,
        64,
        first.line,
        least,
        &mut octets[8..count],
    );
    hear_parts::joined(first, rest)
}

// SYNC and the SFD, heard to their end, and the SFD's octets.
fn hear_preamble(rec: Recording, kind: Kind) -> Preamble
    requires { (front_chips kind ≤ length (taken_of rec))
        × AllUsable (taken_of rec) 0 (front_chips kind) }
    ensures answer { PreambleKnown kind (taken_of rec.entry) result }
{
    let mut octets = [0u8; 18];
    let part = hear_sync(rec, kind, &mut octets);
    let sfd = behind_sync(kind, octets);
    Preamble { part, sfd }
}

// SYNC, the SFD and the header, heard to their end. Each of their symbols is 11 chips.
pub fn hear_front(rec: Recording, kind: Kind) -> FrontHeard
    requires { (front_chips kind ≤ length (taken_of rec))
        × AllUsable (taken_of rec) 0 (front_chips kind) }
    ensures answer { FrontKnown kind (taken_of rec.entry) result }
{
    let Preamble { part: first, sfd } = hear_preamble(rec, kind);
    let rate = common_kinds::header_rate(kind);
    let from = common_kinds::preamble_chips(kind);
    let symbol = from / 11;
    let mut header = [0u8; 6];
    let behind = hear_parts::hear_octets(
        rec,
        rate,
        from,
        symbol,
        first.heard.line,
        first.least,
        &mut header,
    );
    let part = hear_parts::joined(first.heard, behind);
    FrontHeard { part, sfd, header }
}
