// The two kinds of frame, and the numbers that go with a kind.
#![tactic(auto)]

ghost use Rattle.std.specs.Prelude.{◌≡◌, ◌≤◌};
ghost use Rattle.rules_frame.specs.Frame.{is_kind, kind_of, header_rate, goes_with, preamble_chips, front_chips, frame_chips};
ghost use Rattle.common_kinds.specs.Starts.{Starts};

use common_lines::Line;
use rules_frame::Kind;
use rules_rates::Rate;

// Whether a number is a kind.
pub fn is_kind(kind: u64) -> bool
    ensures answer { result ≡ is_kind kind }
{
    kind < 2
}

// The kind of a number; of one that is none, short.
pub fn kind_of(kind: u64) -> Kind
    ensures answer { result ≡ kind_of kind }
{
    match kind {
        0 => Kind::Long,
        _ => Kind::Short,
    }
}

// The rate of a kind's header.
pub fn header_rate(k: Kind) -> Rate
    ensures answer { result ≡ header_rate k }
{
    match k {
        Kind::Long => Rate::One,
        Kind::Short => Rate::Two,
    }
}

// Whether a rate goes with a kind: short excludes 1 Mbit/s.
pub fn goes_with(k: Kind, r: Rate) -> bool
    ensures answer { result ≡ goes_with k r }
{
    !matches!((k, r), (Kind::Short, Rate::One))
}

// The chips of a kind's preamble, SYNC and SFD.
pub fn preamble_chips(k: Kind) -> usize
    ensures answer { result ≡ preamble_chips k }
{
    match k {
        Kind::Long => 1584,
        Kind::Short => 792,
    }
}

// The chips of a kind's front.
pub fn front_chips(k: Kind) -> usize
    ensures answer { result ≡ front_chips k }
{
    match k {
        Kind::Long => 2112,
        Kind::Short => 1056,
    }
}

// The chips of a frame of n octets.
pub fn frame_chips(k: Kind, r: Rate, n: usize) -> usize
    requires { n ≤ 4095 }
    ensures answer { result ≡ frame_chips k r n }
{
    front_chips(k) + r.octet_chips() * n
}

// The line before the first symbol: the scrambler's start, last output first, is 1101100, or 0011011, and stands
// highest in the octet sent last.
pub fn first_line(k: Kind, phase: u8) -> Line
    ensures answer { Starts k phase result }
{
    let past = match k {
        Kind::Long => 0b11011000,
        Kind::Short => 0b00110110,
    };
    Line { past, phase }
}
