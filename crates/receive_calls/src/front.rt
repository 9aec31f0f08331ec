// The front as it comes: its first symbol, the preamble, the header, and what it tells once it is whole.
ghost use Rattle.std.specs.Prelude.{◌≡◌, true, ◌+◌, ◌-◌, ◌<◌, length, take, drop, None};
ghost use Rattle.rules_chips.specs.Chips.{hard_recording};
ghost use Rattle.rules_frame.specs.Frame.{is_kind, kind_of, front_chips};
ghost use Rattle.rules_reading.specs.Reading.{first_unusable};
ghost use Rattle.rules_receiving.specs.Receivers.{preamble_count};
ghost use Rattle.receive_calls.specs.Steps.{Begun, FirstTakes, FrontTakes, FrontTold, stayed, telling};

use super::{Pieced, passing};
use choose_recorders::Recording;
use common_lines::Line;
use hear_blocks::Hearing;
use hear_parts::Part;
use read_fronts::{FrontHeard, Opening};
use receive_parts::{Piece, Taking, taken};
use rules_calls::{Least, Reader, Reading, Record, Refusal, Told};
use rules_frame::Kind;
use rules_rates::Rate;
use rules_receiving::{Ear, Progress};

// What hearing starts from: the phase and the lead of the first symbol, which serves only as reference.
fn begin(kind: Kind, row: &[u8]) -> Ear
    requires { (length row.now ≡ 11) × (first_unusable 0 (hard_recording row.now) ≡ None) }
    ensures answer { Begun kind row.now result }
{
    let mut numbers = [0u8; 64];
    let mut leads = [0u32; 64];
    Recording::Hard(row).decide(Rate::One, 0, 1, &mut numbers, &mut leads);
    let line = common_kinds::first_line(kind, numbers[0]);
    let least = hear_blocks::least::least_of(&leads, 1);
    Ear {
        lead: least.lead,
        symbol: least.symbol,
        past: line.past,
        phase: line.phase,
        last: line.phase,
    }
}

// Chips of the first symbol.
fn first_piece(p: Progress, kind: Kind, hold: &mut [u8], rest: &[u8]) -> Pieced
    requires { (p.count < 11) × (p.bad ≡ 0) × (p.odd ≡ 0) × (length hold.old ≡ 88) × (p.ear.phase < 4)
        × (p.ear.last < 4) }
    ensures answer { FirstTakes kind p hold.old rest.now result hold.new }
{
    let taken = rest.len().min(11 - p.count);
    let n = p.count + taken;
    hold[p.count..n].copy_from_slice(&rest[..taken]);
    let row = &hold[..n];
    let bad = receive_parts::heard::unusable_from(row, 0);
    let ear = if bad.is_none() && n == 11 {
        begin(kind, row)
    } else {
        p.ear
    };
    let progress = passing::advance(p, n, passing::number_of(bad), p.odd, ear);
    Pieced { progress, taken }
}

// How many octets the preamble is.
fn preamble_count(kind: Kind) -> usize
    ensures answer { result ≡ preamble_count kind }
{
    match kind {
        Kind::Long => 18,
        Kind::Short => 9,
    }
}

// Chips of the front, up to its end.
pub fn front_piece(
    p: Progress,
    kind: Kind,
    hold: &mut [u8],
    preamble: &mut [u8],
    header: &mut [u8],
    rest: &[u8],
) -> Pieced
    requires { (p.count < front_chips kind) × (length hold.old ≡ 88) × (length preamble.old ≡ 18)
        × (length header.old ≡ 6) × (p.ear.phase < 4) × (p.ear.last < 4) }
    ensures answer { FrontTakes kind p hold.old preamble.old header.old
        rest.now result hold.new preamble.new header.new }
{
    if p.bad != 0 || p.odd != 0 {
        return passing::pass(p, rest, common_kinds::front_chips(kind) - p.count);
    }
    if p.count < 11 {
        return first_piece(p, kind, hold, rest);
    }
    let from = common_kinds::preamble_chips(kind);
    if p.count < from {
        let n = preamble_count(kind);
        let t = taken::take_piece(Rate::One, 0, 0, n, p.count, p.ear, hold, rest, preamble);
        return passing::keep(p, t);
    }
    let rate = common_kinds::header_rate(kind);
    let t = taken::take_piece(rate, from, from / 11, 6, p.count, p.ear, hold, rest, header);
    passing::keep(p, t)
}

// The SFD's octets, those behind SYNC.
fn sfd_of(kind: Kind, preamble: &[u8]) -> [u8; 2]
    requires { length preamble.now ≡ 18 }
    ensures answer { result ≡ take 2 (drop (preamble_count kind - 2) preamble.now) }
{
    match kind {
        Kind::Long => [preamble[16], preamble[17]],
        Kind::Short => [preamble[7], preamble[8]],
    }
}

// The header's octets as an array.
fn header_of(header: &[u8]) -> [u8; 6]
    requires { length header.now ≡ 6 }
    ensures answer { result ≡ header.now }
{
    let mut octets = [0; 6];
    octets.copy_from_slice(header);
    octets
}

// A refusal that stays, whatever follows.
fn stay(p: Progress, e: Refusal) -> Progress
    ensures answer { result ≡ stayed p e }
{
    let record = common_answers::record_of(Err(e));
    let mut u = p;
    u.status = 3;
    u.number = record.number;
    u.place = record.place as usize;
    u.length = record.length as usize;
    u
}

// What the front told.
fn tell(p: Progress, t: Told) -> Progress
    ensures answer { result ≡ telling p t }
{
    let mut u = p;
    u.status = 2;
    u.rate = t.rate.code();
    u.length = t.length;
    u.n = t.n;
    u.clock = t.clock as u64;
    u.bad = 0;
    u.odd = 0;
    u.ear.last = p.ear.phase;
    u
}

// A front that is whole: 9, 10, then what was heard of it tells.
pub fn front_told(p: Progress, kind: Kind, preamble: &[u8], header: &[u8]) -> Progress
    requires { (p.count ≡ front_chips kind) × (is_kind p.kind ≡ true) × (kind_of p.kind ≡ kind)
        × (length preamble.now ≡ 18) × (length header.now ≡ 6) × (p.ear.phase < 4) × (p.ear.last < 4) }
    ensures answer { FrontTold kind p preamble.now header.now result }
{
    if p.bad != 0 {
        return stay(
            p,
            Refusal::Unusable {
                place: p.bad - 1,
                length: 0,
            },
        );
    }
    if p.odd != 0 {
        return stay(
            p,
            Refusal::OddGrowth {
                place: p.odd - 1,
                length: 0,
            },
        );
    }
    let line = Line {
        past: p.ear.past,
        phase: p.ear.phase,
    };
    let least = Least {
        lead: p.ear.lead,
        symbol: p.ear.symbol,
    };
    let part = Part {
        heard: Hearing { line, odd: None },
        least,
    };
    let known = FrontHeard {
        part,
        sfd: sfd_of(kind, preamble),
        header: header_of(header),
    };
    match read_fronts::told(Reader::Ours, kind, known).front {
        Err(e) => stay(p, e),
        Ok(t) => tell(p, t),
    }
}
