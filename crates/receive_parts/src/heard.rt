// A row of chips heard: whole octets, or the new symbols of an octet that is not whole.
ghost use Rattle.std.specs.Prelude.{◌≡◌, ◌+◌, ◌*◌, ◌≤◌, ◌<◌, length, None};
ghost use Rattle.rules_rates.specs.Rates.{octet_chips};
ghost use Rattle.rules_chips.specs.Chips.{hard_recording};
ghost use Rattle.rules_reading.specs.Reading.{first_unusable};
ghost use Rattle.receive_parts.specs.Pieces.{
  PlaceBelow,
  moved,
  MovedBelow,
  NoneAbove,
  Looked,
  WholeHeard,
  PartHeld,
};

use super::{Grown, Piece};
use choose_recorders::Recording;
use common_lines::Line;
use rules_calls::Least;
use rules_rates::Rate;
use rules_receiving::Ear;

// A place counted from a row's first chip, counted from the recording's.
fn placed(found: Option<usize>, at: usize) -> Option<usize>
    requires { MovedBelow at found }
    ensures answer { result ≡ moved at found }
    ensures few { PlaceBelow result }
{
    found.map(|place| at + place)
}

// The largest octet of a row. There is no way out of the loop, so that the compiler takes many octets at a time.
fn largest(row: &[u8]) -> u8
    ensures answer { NoneAbove result row.now (length row.now) }
{
    let mut most: u8 = 0;
    for octet in row {
        most = most.max(*octet);
    }
    most
}

// The first unusable chip of a row whose first chip is chip `at` of the recording.
pub fn unusable_from(row: &[u8], at: usize) -> Option<usize>
    requires { at + length row.now ≤ 1000000 }
    ensures answer { result ≡ first_unusable at (hard_recording row.now) }
    ensures few { PlaceBelow result }
{
    if largest(row) < 5 {
        return None;
    }
    placed(Recording::Hard(row).first_unusable(0, row.len()), at)
}

// The whole symbols of a row of usable chips at 1 Mbit/s, but for those that were whole when it had h chips. The row's
// first chip is chip `at` of the recording; the symbol before the new ones has phase `last`.
fn look(row: &[u8], at: usize, h: usize, last: u8) -> Grown
    requires { (length row.now ≤ 88) × (h ≤ length row.now) × (at ≤ 900000) × (last < 4)
        × (first_unusable at (hard_recording row.now) ≡ None) }
    ensures answer { Looked at h row.now last result }
{
    let mut numbers = [0u8; 64];
    let mut leads = [0u32; 64];
    let q = h / 11;
    let m = row.len() / 11 - q;
    Recording::Hard(row).decide(Rate::One, 11 * q, m, &mut numbers, &mut leads);
    let mut p = last;
    for l in 0..m {
        let n = numbers[l];
        if (n + p) % 2 == 1 {
            return Grown {
                odd: Some(at + 11 * (q + l)),
                last: n,
            };
        }
        p = n;
    }
    Grown { odd: None, last: p }
}

// Where a row starts: its rate, its first chip as a place of the recording, its first symbol as a number of the frame, and
// what hearing goes on from.
#[derive(Clone, Copy)]
pub struct Start {
    pub rate: Rate,
    pub at: usize,
    pub symbol: usize,
    pub ear: Ear,
}

impl Start {
    // Whole octets of usable chips.
    fn hear_usable(self, row: &[u8], out: &mut [u8]) -> Piece
        requires { (length row.now ≡ octet_chips self.rate * length out.old) × (self.at + length row.now ≤ 1000000)
            × (self.symbol ≤ 1000000) × (self.ear.phase < 4)
            × (first_unusable self.at (hard_recording row.now) ≡ None) }
        ensures answer { WholeHeard self.rate self.at self.symbol self.ear row.now (length out.old) result out.new }
    {
        let Start {
            rate,
            at,
            symbol,
            ear,
        } = self;
        let line = Line {
            past: ear.past,
            phase: ear.phase,
        };
        let least = Least {
            lead: ear.lead,
            symbol: ear.symbol,
        };
        let part = hear_parts::hear_octets(Recording::Hard(row), rate, 0, symbol, line, least, out);
        let after = part.heard.line;
        let ear = Ear {
            lead: part.least.lead,
            symbol: part.least.symbol,
            past: after.past,
            phase: after.phase,
            last: after.phase,
        };
        let odd = placed(part.heard.odd, at);
        Piece {
            ear,
            bad: None,
            odd,
        }
    }

    // Whole octets, as many as there is room for: 9, then 10, then the octets.
    pub fn hear_whole(self, row: &[u8], out: &mut [u8]) -> Piece
        requires { (length row.now ≡ octet_chips self.rate * length out.old) × (self.at + length row.now ≤ 1000000)
            × (self.symbol ≤ 1000000) × (self.ear.phase < 4) × (self.ear.last < 4) }
        ensures answer { WholeHeard self.rate self.at self.symbol self.ear row.now (length out.old) result out.new }
    {
        let bad = unusable_from(row, self.at);
        match bad {
            Some(_) => Piece {
                ear: self.ear,
                bad,
                odd: None,
            },
            None => self.hear_usable(row, out),
        }
    }

    // An octet that is not whole, of which h chips were held before: 9, then 10 of its new whole symbols.
    pub fn hold_part(self, h: usize, row: &[u8]) -> Piece
        requires { (length row.now ≤ octet_chips self.rate) × (h ≤ length row.now) × (self.at ≤ 900000)
            × (self.ear.last < 4) }
        ensures answer { PartHeld self.rate self.at self.ear h row.now result }
    {
        let mut ear = self.ear;
        let bad = unusable_from(row, self.at);
        if bad.is_some() {
            return Piece {
                ear,
                bad,
                odd: None,
            };
        }
        match self.rate {
            Rate::One => {
                let looked = look(row, self.at, h, ear.last);
                ear.last = looked.last;
                Piece {
                    ear,
                    bad,
                    odd: looked.odd,
                }
            }
            Rate::Two | Rate::Five | Rate::Eleven => Piece {
                ear,
                bad,
                odd: None,
            },
        }
    }
}
