// The front of a recording: refusals 8, 9 and 10 over it, and 11 to 15.
#![tactic(auto)]

ghost use Rattle.std.specs.Prelude.{◌≡◌, List, ◌≤◌, Ok, Err};
ghost use Rattle.rules_chips.specs.Chips.{Taken};
ghost use Rattle.rules_calls.specs.declared.Told.{Told};
ghost use Rattle.rules_calls.specs.Answers.{refusal_number};
ghost use Rattle.rules_calls.specs.Headers.{accepted_by};
ghost use Rattle.rules_reading.specs.Reading.{front_by};
ghost use Rattle.choose_recorders.specs.Rows.{taken_of};
ghost use Rattle.read_fronts.specs.Openings.{FrontKnown, after_usable, Looks, Opens, OpensWhole};

use choose_recorders::Recording;
use common_lines::Line;
use hear_blocks::Hearing;
use hear_parts::Part;
use rules_calls::{Least, Reader, Refusal, Told};
use rules_frame::Kind;
use rules_rates::Rate;

pub mod heard;

// A preamble heard: the line at its end with the first symbol grown by 1 or 3, the smallest lead, and the SFD's octets.
#[derive(Clone, Copy)]
pub struct Preamble {
    pub part: Part,
    pub sfd: [u8; 2],
}

// A front heard: the same at its end, and the header's octets.
#[derive(Clone, Copy)]
pub struct FrontHeard {
    pub part: Part,
    pub sfd: [u8; 2],
    pub header: [u8; 6],
}

// Whether a front can be heard: the recording is shorter, or its chip at a place is the first unusable one, or all of
// them are usable.
#[derive(Clone, Copy)]
pub enum Look {
    Shorter,
    Unusable(usize),
    Usable,
}

// A front read, the line that the payload starts on, and the smallest lead before it.
#[derive(Clone, Copy)]
pub struct Opening {
    pub front: Result<Told, Refusal>,
    pub line: Line,
    pub least: Least,
}

// An opening that refuses; its line and lead are not used.
fn refused(e: Refusal) -> Opening
    ensures answer { result.front ≡ Err e }
{
    let front = Err(e);
    let line = common_kinds::first_line(Kind::Long, 0);
    let least = Least { lead: 0, symbol: 0 };
    Opening { front, line, least }
}

// What a front that was heard tells a reader, whatever recording it is of: 10, then 11 to 15. What these refusals are
// about stands in what was heard: the place of the first symbol grown by 1 or 3, the SFD's octets and the header's. A
// front of no recording, too, tells of 4,095 octets at most, and is refused with no other numbers.
pub fn told(by: Reader, kind: Kind, known: FrontHeard) -> Opening
    ensures answer { (rec : List Taken) → FrontKnown kind rec known →
        Opens kind rec (after_usable (accepted_by by) kind rec) result }
    ensures few { (t : Told) → result.front ≡ Ok t → t.n ≤ 4095 }
    ensures refuses { (e : Refusal) → result.front ≡ Err e →
        (10 ≤ refusal_number e) × (refusal_number e ≤ 15) }
{
    let FrontHeard { part, sfd, header } = known;
    match part.heard.odd {
        Some(place) => refused(Refusal::OddGrowth { place, length: 0 }),
        None => Opening {
            front: common_header::header_of(by, kind, sfd, header),
            line: part.heard.line,
            least: part.least,
        },
    }
}

// Whether a front can be heard: 8, 9.
pub fn look_at_front(rec: Recording, kind: Kind) -> Look
    ensures answer { Looks kind (taken_of rec.entry) result }
{
    let chips = common_kinds::front_chips(kind);
    if rec.chip_count() < chips {
        return Look::Shorter;
    }
    match rec.first_unusable(0, chips) {
        Some(place) => Look::Unusable(place),
        None => Look::Usable,
    }
}

// What a recording's front tells a reader, with the line and lead that its payload goes on from: 8, 9, 10, and 11 to
// 15.
pub fn read_front(by: Reader, rec: Recording, kind: Kind) -> Opening
    ensures answer { Opens kind (taken_of rec.entry)
        (front_by (accepted_by by) kind (taken_of rec.entry)) result }
{
    match look_at_front(rec, kind) {
        Look::Shorter => refused(Refusal::ShorterThanFront),
        Look::Unusable(place) => refused(Refusal::Unusable { place, length: 0 }),
        Look::Usable => told(by, kind, heard::hear_front(rec, kind)),
    }
}

// The same, and 16: whether the recording has the chips of the frame that its front tells of.
pub fn read_whole(by: Reader, rec: Recording, kind: Kind) -> Opening
    ensures answer { OpensWhole (accepted_by by) kind (taken_of rec.entry) result }
{
    let opening = read_front(by, rec, kind);
    match opening.front {
        Err(e) => refused(e),
        Ok(t) => {
            let all = common_kinds::frame_chips(kind, t.rate, t.n);
            if rec.chip_count() < all {
                return refused(Refusal::Ends { length: t.length });
            }
            opening
        }
    }
}
