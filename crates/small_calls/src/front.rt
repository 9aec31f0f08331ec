// What is coming: a hard recording's front read, and none of its payload's chips; and the part of the recording that
// holds those.
ghost use Rattle.std.specs.Prelude.{◌≡◌, ◌≤◌, Ok, Err};
ghost use Rattle.rules_chips.specs.Chips.{hard_recording};
ghost use Rattle.rules_frame.specs.Frame.{kind_of};
ghost use Rattle.rules_coming.specs.Coming.{front_reading, coming_of};
ghost use Rattle.promises.specs.Calls.{Handed};

use choose_recorders::Recording;
use rules_calls::{Reader, Refusal, Told};
use rules_coming::Coming;
use rules_frame::Kind;
use rules_rates::Rate;

// A refusal in numbers: all else is 0.
fn refused(kind: Kind, e: Refusal) -> Coming
    ensures answer { result ≡ coming_of kind (Err e) }
{
    Coming {
        number: common_answers::number_of(e),
        place: common_answers::place_of(e),
        rate: 0,
        length: common_answers::length_of(e),
        clock: 0,
        n: 0,
        used: 0,
        at: 0,
        count: 0,
    }
}

// What a header tells in numbers, the whole frame's chips, and where the payload's are.
fn told(kind: Kind, t: Told) -> Coming
    requires { t.n ≤ 4095 }
    ensures answer { result ≡ coming_of kind (Ok t) }
{
    let at = common_kinds::front_chips(kind);
    let used = common_kinds::frame_chips(kind, t.rate, t.n);
    Coming {
        number: 0,
        place: 0,
        rate: t.rate.code(),
        length: t.length as u64,
        clock: t.clock as u64,
        n: t.n as u64,
        used: used as u64,
        at: at as u64,
        count: (used - at) as u64,
    }
}

// What is coming: 1, 8, then 9 and 10 over the front, 11 to 16.
pub fn read_front(kind: u64, chips: &[u8]) -> Coming
    ensures answer { result ≡
        coming_of (kind_of kind) (front_reading kind (hard_recording chips.now)) }
{
    let k = common_kinds::kind_of(kind);
    if !common_kinds::is_kind(kind) {
        return refused(k, Refusal::NoKind);
    }
    match read_fronts::read_whole(Reader::Ours, Recording::Hard(chips), k).front {
        Err(e) => refused(k, e),
        Ok(t) => told(k, t),
    }
}

// The part of a recording that an answer says holds the payload's chips: the recording's own, not a copy. It is empty
// after a refusal, and where the recording does not have it, which then is not the one that was read.
pub fn part(coming: Coming, chips: &[u8]) -> &[u8]
    ensures handed { Handed coming chips.now result.now }
{
    let at = coming.at as usize;
    let count = coming.count as usize;
    if chips.len() < at || chips.len() - at < count {
        return &chips[..0];
    }
    &chips[at..at + count]
}
