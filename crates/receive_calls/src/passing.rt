// Chips counted, and what was found and heard of them kept.
ghost use Rattle.std.specs.Prelude.{◌≡◌, ◌+◌, ◌≤◌};
ghost use Rattle.rules_receiving.specs.Receivers.{place_number};
ghost use Rattle.receive_parts.specs.Pieces.{PlaceBelow};
ghost use Rattle.receive_calls.specs.Steps.{advanced, Keeps, Passes};

use super::Pieced;
use receive_parts::{Piece, Taking};
use rules_receiving::{Ear, Progress};

// A place as a number, 0 where there is none.
pub fn number_of(found: Option<usize>) -> usize
    requires { PlaceBelow found }
    ensures answer { result ≡ place_number found }
{
    found.map_or(0, |place| place + 1)
}

// So many chips have come, and what was found and heard of them.
pub fn advance(p: Progress, count: usize, bad: usize, odd: usize, ear: Ear) -> Progress
    ensures answer { result ≡ advanced p count bad odd ear }
{
    let mut u = p;
    u.count = count;
    u.bad = bad;
    u.odd = odd;
    u.ear = ear;
    u
}

// What a piece of a part found and heard, kept.
pub fn keep(p: Progress, t: Taking) -> Pieced
    requires { PlaceBelow t.piece.bad × PlaceBelow t.piece.odd × (p.count + t.taken ≤ 1000000) }
    ensures answer { Keeps p t result }
{
    let bad = number_of(t.piece.bad);
    let odd = number_of(t.piece.odd);
    let progress = advance(p, p.count + t.taken, bad, odd, t.piece.ear);
    Pieced {
        progress,
        taken: t.taken,
    }
}

// At most `left` chips where a refusal is certain: they are counted, and looked through for 9 where only 10 was found.
pub fn pass(p: Progress, rest: &[u8], left: usize) -> Pieced
    requires { p.count + left ≤ 1000000 }
    ensures answer { Passes p rest.now left result }
{
    let taken = rest.len().min(left);
    let bad = if p.bad == 0 {
        number_of(receive_parts::heard::unusable_from(&rest[..taken], p.count))
    } else {
        p.bad
    };
    let progress = advance(p, p.count + taken, bad, p.odd, p.ear);
    Pieced { progress, taken }
}
