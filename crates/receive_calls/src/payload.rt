// The payload as it comes.
ghost use Rattle.std.specs.Prelude.{◌≡◌, ◌<◌, length};
ghost use Rattle.receive_calls.specs.Steps.{settled, Paid, PayloadSome};

use super::{Pieced, passing};
use receive_parts::{Piece, Taking, taken};
use rules_frame::Kind;
use rules_rates::Rate;
use rules_receiving::{Ear, Progress};

// The octets are cleared once a refusal is certain.
fn settle(q: Pieced, octets: &mut [u8]) -> Pieced
    ensures answer { result ≡ q }
    ensures octets { octets.new ≡ settled q.progress octets.old }
{
    if q.progress.bad != 0 || q.progress.odd != 0 {
        common_rows::fill(octets, 0);
    }
    q
}

// Chips of the payload, up to the frame's end; those behind it are not looked at.
pub fn payload_piece(
    p: Progress,
    kind: Kind,
    rate: Rate,
    hold: &mut [u8],
    rest: &[u8],
    octets: &mut [u8],
) -> Pieced
    requires { Paid p kind rate × (p.room ≡ length octets.old) × (length hold.old ≡ 88) }
    ensures answer { PayloadSome p hold.old octets.old rest.now result
        hold.new octets.new }
{
    let all = common_kinds::frame_chips(kind, rate, p.n);
    if p.count == all {
        return Pieced {
            progress: p,
            taken: rest.len(),
        };
    }
    if octets.len() < p.n || p.bad != 0 || p.odd != 0 {
        return passing::pass(p, rest, all - p.count);
    }
    let from = common_kinds::front_chips(kind);
    let t = taken::take_piece(
        rate,
        from,
        from / 11,
        p.n,
        p.count,
        p.ear,
        hold,
        rest,
        octets,
    );
    settle(passing::keep(p, t), octets)
}
