// The order of checks before a chip is written.
ghost use Rattle.std.specs.Prelude.{◌≡◌};
ghost use Rattle.rules_calls.specs.Writing.{writing_of};

use rules_calls::{Frame, Refusal};
use rules_frame::Kind;
use rules_rates::Rate;

// What a write of n octets into room for so many chips comes to: refusals 1 to 6, in this order.
#[tactic(auto, unfolding(rules_calls::specs::Writing::writing_of))]
pub fn check_write(
    kind: u64,
    rate: u64,
    phase: u64,
    n: usize,
    room: usize,
) -> Result<Frame, Refusal>
    ensures answer { result ≡ writing_of kind rate phase n room }
{
    let kind = Kind::try_from(kind).map_err(|_| Refusal::NoKind)?;
    let rate = Rate::try_from(rate).map_err(|_| Refusal::NoRate)?;
    if !common_kinds::goes_with(kind, rate) {
        return Err(Refusal::ShortRate);
    }
    if !rules_rates::is_payload(n) {
        return Err(Refusal::PayloadSize);
    }
    if 3 < phase {
        return Err(Refusal::NoPhase);
    }
    let chips = common_kinds::frame_chips(kind, rate, n);
    if room < chips {
        return Err(Refusal::ChipRoom);
    }
    Ok(Frame { kind, rate, chips })
}
