// The two kinds of frame, and the numbers that stand for them.
#![tactic(auto)]

ghost use Rattle.rules_frame.specs.Frame.{Kinded};

// The preamble's kind.
#[derive(Clone, Copy)]
pub enum Kind {
    Long,
    Short,
}

// A number that is no kind.
#[derive(Clone, Copy)]
pub struct UnknownKind(pub u64);

impl TryFrom<u64> for Kind {
    type Error = UnknownKind;

    ghost try_from_gives = { Kinded };

    fn try_from(kind: u64) -> Result<Self, UnknownKind> {
        match kind {
            0 => Ok(Kind::Long),
            1 => Ok(Kind::Short),
            _ => Err(UnknownKind(kind)),
        }
    }
}
