// Open, feed and close of a receiver, by value: each takes a receiver and gives it back beside its answer.
#![tactic(auto)]

ghost use Rattle.rules_receiving.specs.Calls.{ReceiverOpens, ReceiverFeeds, ReceiverCloses};

use rules_calls::{Record, Refusal};
use rules_receiving::{Closed, Ear, Fed, Progress, Receiver};

mod closing;
mod feeding;
mod front;
mod opening;
mod passing;
mod payload;
mod sound;

// How far a receiver has come behind a piece of a batch, and how many chips the piece took.
#[derive(Clone, Copy)]
pub struct Pieced {
    pub progress: Progress,
    pub taken: usize,
}

// Open: whatever the receiver was, one that has been fed nothing, and a buffer of zeros. A kind that is none is refused
// at close.
pub fn open_in(s: Receiver, kind: u64, octets: &mut [u8]) -> Fed
    ensures { ReceiverOpens kind octets.old result.receiver result.answer octets.new }
{
    common_rows::fill(octets, 0);
    let (status, number) = if common_kinds::is_kind(kind) {
        (1, 0)
    } else {
        (3, 1)
    };
    let receiver = opening::fresh_receiver(status, kind, octets.len(), number);
    Fed {
        receiver,
        answer: 0,
    }
}

// Feed: a batch behind all that was fed.
pub fn feed_in(s: Receiver, octets: &mut [u8], batch: &[u8]) -> Fed
    ensures { ReceiverFeeds s octets.old batch.now result.receiver result.answer
        octets.new }
{
    if sound::takes(s.progress, octets.len()) {
        let receiver = feeding::feed_all(s, octets, batch);
        return Fed {
            receiver,
            answer: 0,
        };
    }
    Fed {
        receiver: s,
        answer: 20,
    }
}

// Close: the record of all chips fed, and a receiver that is shut.
pub fn close_in(s: Receiver, octets: &mut [u8]) -> Closed
    ensures { ReceiverCloses s octets.old result.receiver result.answer octets.new }
{
    let p = s.progress;
    if !sound::takes(p, octets.len()) {
        return Closed {
            receiver: s,
            answer: closing::not_open(),
        };
    }
    let mut receiver = s;
    receiver.progress.status = 0;
    let answer = match p.status {
        1 => closing::refuse(Refusal::ShorterThanFront, octets),
        2 => closing::tell_payload(p, octets),
        _ => closing::kept(p, octets),
    };
    Closed { receiver, answer }
}
