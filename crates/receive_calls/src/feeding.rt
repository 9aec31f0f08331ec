// A batch in pieces, one after the other.
ghost use Rattle.std.specs.Prelude.{◌≡◌, true, length};
ghost use Rattle.rules_receiving.specs.Calls.{takes};
ghost use Rattle.receive_calls.specs.Steps.{TakesSome, FrontSome, BatchIs};

use super::{Pieced, front, payload};
use rules_frame::Kind;
use rules_rates::Rate;
use rules_receiving::{Ear, Progress, Receiver};

// Chips of the front, and what it tells if it is whole then.
fn next_front(
    p: Progress,
    hold: &mut [u8],
    preamble: &mut [u8],
    header: &mut [u8],
    rest: &[u8],
) -> Pieced
    requires { (takes p p.room ≡ true) × (p.status ≡ 1) × (length hold.old ≡ 88)
        × (length preamble.old ≡ 18) × (length header.old ≡ 6) }
    ensures answer { FrontSome p hold.old preamble.old header.old
        rest.now result hold.new preamble.new header.new }
{
    let kind = common_kinds::kind_of(p.kind);
    let q = front::front_piece(p, kind, hold, preamble, header, rest);
    if q.progress.count < common_kinds::front_chips(kind) {
        return q;
    }
    let progress = front::front_told(q.progress, kind, preamble, header);
    Pieced {
        progress,
        taken: q.taken,
    }
}

// A piece of the chips left.
fn next_piece(
    p: Progress,
    hold: &mut [u8],
    preamble: &mut [u8],
    header: &mut [u8],
    rest: &[u8],
    octets: &mut [u8],
) -> Pieced
    requires { (takes p (length octets.old) ≡ true) × (length hold.old ≡ 88) × (length preamble.old ≡ 18)
        × (length header.old ≡ 6) }
    ensures answer { TakesSome p hold.old preamble.old header.old
        octets.old rest.now result hold.new preamble.new header.new
        octets.new }
{
    match p.status {
        1 => next_front(p, hold, preamble, header, rest),
        2 => {
            let kind = common_kinds::kind_of(p.kind);
            let rate = rules_rates::rate_of(p.rate);
            payload::payload_piece(p, kind, rate, hold, rest, octets)
        }
        _ => Pieced {
            progress: p,
            taken: rest.len(),
        },
    }
}

// All pieces of a batch.
pub fn feed_all(s: Receiver, octets: &mut [u8], batch: &[u8]) -> Receiver
    requires { takes s.progress (length octets.old) ≡ true }
    ensures answer { BatchIs s octets.old batch.now result octets.new }
{
    let mut hold = s.hold;
    let mut preamble = s.preamble;
    let mut header = s.header;
    let mut progress = s.progress;
    let mut at = 0;
    while at < batch.len() {
        let q = next_piece(
            progress,
            &mut hold,
            &mut preamble,
            &mut header,
            &batch[at..],
            octets,
        );
        progress = q.progress;
        at += q.taken;
    }
    Receiver {
        progress,
        hold,
        preamble,
        header,
    }
}
