// The writer: payload, rate, kind, starting phase and clock to the chips of a frame. Every argument is checked
// first; whatever comes of it, the whole chip buffer is written.
#![tactic(auto)]

ghost use Rattle.std.specs.Prelude.{◌≡◌, ◌++◌, ◌-◌, ◌≤◌, length, replicate};
ghost use Rattle.base.specs.Over.{over};
ghost use Rattle.rules_frame.specs.Frame.{preamble_chips, front_chips, frame_chips, frame};
ghost use Rattle.rules_calls.specs.Writing.{writing_of, chips_written};
ghost use Rattle.rules_calls.specs.Answers.{written_of};
ghost use Rattle.write_octets.specs.Sending.{run, ran};
ghost use Rattle.write_octets.specs.Line.{state};
ghost use Rattle.write_frame.specs.Parts.{preamble_octets, front_sent, after_front};

use common_lines::Line;
use rules_calls::{Frame, Written};
use rules_frame::Kind;
use rules_rates::Rate;

mod checks;

// The preambles' octets: SYNC, then SFD.
const LONG: [u8; 18] = [
    255, 255, 255, 255, 255, 255, 255, 255, 255, 255, 255, 255, 255, 255, 255, 255, 0xA0, 0xF3,
];

const SHORT: [u8; 9] = [0, 0, 0, 0, 0, 0, 0, 0xCF, 0x05];

fn put_preamble(k: Kind, l: Line, chips: &mut [u8]) -> Line
    requires { preamble_chips k ≤ length chips.old }
    ensures answer { state result ≡ ran Rate.One 0 (state l) (preamble_octets k) }
    ensures chips { chips.new ≡ over (run Rate.One 0 (state l) (preamble_octets k))
        chips.old }
{
    match k {
        Kind::Long => {
            let octets = LONG;
            write_octets::put_octets(Rate::One, l, &octets, chips)
        }
        Kind::Short => {
            let octets = SHORT;
            write_octets::put_octets(Rate::One, l, &octets, chips)
        }
    }
}

// The preamble and a header of six octets.
pub fn put_front(k: Kind, p: u8, header: &[u8], chips: &mut [u8]) -> Line
    requires { (length header.now ≡ 6) × (front_chips k ≤ length chips.old) }
    ensures answer { state result ≡ after_front k p header.now }
    ensures chips { chips.new ≡ over (front_sent k p header.now) chips.old }
{
    let l0 = common_kinds::first_line(k, p);
    let l1 = put_preamble(k, l0, chips);
    let at = common_kinds::preamble_chips(k);
    write_octets::put_octets(common_kinds::header_rate(k), l1, header, &mut chips[at..])
}

// The whole frame, and 4s to the buffer's end.
fn put_frame(f: Frame, p: u8, clock: bool, payload: &[u8], chips: &mut [u8])
    requires { (length payload.now ≤ 4095) × (f.chips ≡ frame_chips f.kind f.rate (length payload.now))
        × (f.chips ≤ length chips.old) }
    ensures chips { chips.new
        ≡ frame f.kind f.rate p clock payload.now ++ replicate (length chips.old - f.chips) 4 }
{
    let header = common_header::header_octets(f.rate, clock, payload.len());
    let l = put_front(f.kind, p, &header, chips);
    let at = common_kinds::front_chips(f.kind);
    write_octets::put_octets(f.rate, l, payload, &mut chips[at..]);
    common_rows::fill(&mut chips[f.chips..], 4);
}

// A frame's chips from its payload; the answer tells the refusal, or how many chips were written. A clock of 0 is no,
// any other yes.
pub fn write(
    kind: u64,
    rate: u64,
    phase: u64,
    clock: u64,
    payload: &[u8],
    chips: &mut [u8],
) -> Written
    ensures answer { result ≡ written_of
        (writing_of kind rate phase (length payload.now) (length chips.old)) }
    ensures chips { chips.new
        ≡ chips_written kind rate phase clock payload.now (length chips.old) }
{
    let writing = checks::check_write(kind, rate, phase, payload.len(), chips.len());
    match writing {
        Ok(frame) => put_frame(frame, phase as u8, clock != 0, payload, chips),
        Err(_) => common_rows::fill(chips, 4),
    }
    common_answers::written_of(writing)
}
