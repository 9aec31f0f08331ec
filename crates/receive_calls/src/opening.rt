// A receiver as an open leaves it.
ghost use Rattle.std.specs.Prelude.{◌≡◌};
ghost use Rattle.rules_receiving.specs.Calls.{fresh};

use rules_receiving::{Ear, Progress, Receiver};

// A receiver that has been fed nothing.
pub fn fresh_receiver(status: u64, kind: u64, room: usize, number: u64) -> Receiver
    ensures answer { result ≡ fresh status kind room number }
{
    let ear = Ear {
        lead: 0,
        symbol: 0,
        past: 0,
        phase: 0,
        last: 0,
    };
    let progress = Progress {
        status,
        kind,
        room,
        count: 0,
        number,
        place: 0,
        rate: 0,
        length: 0,
        n: 0,
        clock: 0,
        bad: 0,
        odd: 0,
        ear,
    };
    Receiver {
        progress,
        hold: [0; 88],
        preamble: [0; 18],
        header: [0; 6],
    }
}
