// Whether a receiver takes a feed or a close: it is open, the buffer has the length it was opened with, and its numbers
// are such that no sum, index or part is out of range.
ghost use Rattle.std.specs.Prelude.{◌≡◌};
ghost use Rattle.rules_receiving.specs.Calls.{sound_front, sound_payload, sound_refused, takes};

use rules_frame::Kind;
use rules_rates::Rate;
use rules_receiving::{Ear, Progress};

// The numbers of a receiver whose front comes.
fn sound_front(p: Progress) -> bool
    ensures answer { result ≡ sound_front p }
{
    common_kinds::is_kind(p.kind)
        && p.count < common_kinds::front_chips(common_kinds::kind_of(p.kind))
}

// The numbers of a receiver whose payload comes.
fn sound_payload(p: Progress) -> bool
    ensures answer { result ≡ sound_payload p }
{
    if !common_kinds::is_kind(p.kind) || !rules_rates::is_code(p.rate) || 4095 < p.n {
        return false;
    }
    let kind = common_kinds::kind_of(p.kind);
    let rate = rules_rates::rate_of(p.rate);
    common_kinds::front_chips(kind) <= p.count
        && p.count <= common_kinds::frame_chips(kind, rate, p.n)
}

// The numbers of a receiver whose refusal stays: 1 where the kind is none, else one of a front that is whole.
fn sound_refused(p: Progress) -> bool
    ensures answer { result ≡ sound_refused p }
{
    if common_kinds::is_kind(p.kind) {
        9 <= p.number && p.number <= 15
    } else {
        p.number == 1
    }
}

// Whether a receiver takes a feed or a close with a buffer of so many octets. Called, it would cost a feed of few chips
// more than it does itself.
#[inline(always)]
pub fn takes(p: Progress, room: usize) -> bool
    ensures answer { result ≡ takes p room }
{
    if p.room != room || 3 < p.ear.phase || 3 < p.ear.last {
        return false;
    }
    match p.status {
        1 => sound_front(p),
        2 => sound_payload(p),
        3 => sound_refused(p),
        _ => false,
    }
}
