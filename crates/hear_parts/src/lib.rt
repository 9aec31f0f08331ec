// Hearing: octets of a recording, block after block of up to 64 symbols, on a line that goes by value; and the smallest
// lead of their symbols.
#![tactic(auto)]

ghost use Rattle.std.specs.Prelude.{◌≡◌, ◌+◌, ◌*◌, ◌^◌, ◌≤◌, ◌<◌, length};
ghost use Rattle.std.specs.Prelude.{Some};
ghost use Rattle.base.specs.Over.{over};
ghost use Rattle.rules_rates.specs.Rates.{octet_symbols, octet_chips};
ghost use Rattle.rules_reading.specs.Reading.{or_else};
ghost use Rattle.rules_reading.specs.Leads.{least_from};
ghost use Rattle.choose_recorders.specs.Rows.{taken_of};
ghost use Rattle.choose_recorded.specs.Recorded.{AllUsable};
ghost use Rattle.hear_codes.specs.Codes.{BlockOf};
ghost use Rattle.hear_blocks.specs.Heard.{plain_octets, Heard};
ghost use Rattle.hear_parts.specs.Hearing.{part_words, part_leads, PartHeard};

use choose_recorders::Recording;
use common_lines::Line;
use hear_blocks::Hearing;
use rules_calls::Least;
use rules_rates::Rate;

// A part heard: the line behind it with the place of the first symbol grown by 1 or 3, and the smallest lead so far.
#[derive(Clone, Copy)]
pub struct Part {
    pub heard: Hearing,
    pub least: Least,
}

// What was heard first, and then a part.
pub fn joined(a: Hearing, b: Part) -> Part
    ensures line { result.heard.line ≡ b.heard.line }
    ensures odd { result.heard.odd ≡ or_else a.odd (λ place. Some place) b.heard.odd }
    ensures least { result.least ≡ b.least }
{
    let odd = a.odd.or(b.heard.odd);
    let line = b.heard.line;
    Part {
        heard: Hearing { line, odd },
        least: b.least,
    }
}

// So many octets of usable chips that start at a place, at most a block, into a buffer's front. Their first symbol
// has a number in the frame, even or odd.
fn hear_block(
    rec: Recording,
    rate: Rate,
    place: usize,
    symbol: usize,
    line: Line,
    least: Least,
    count: usize,
    out: &mut [u8],
) -> Part
    requires { (octet_symbols rate * count ≤ 64) × (count ≤ length out.old)
        × (place + octet_chips rate * count ≤ length (taken_of rec))
        × AllUsable (taken_of rec) place (octet_chips rate * count) × (line.phase < 4)
        × (symbol + octet_symbols rate * count < 2 ^ 64) }
    ensures answer { Heard rate symbol place line (part_words rate place count (taken_of rec.entry)) result.heard }
    ensures least { result.least ≡ least_from symbol least (part_leads rate place count (taken_of rec.entry)) }
    ensures out { out.new ≡ over (plain_octets rate symbol count line (part_words rate place count (taken_of rec.entry))) out.old }
{
    rec.is_countable();
    let mut numbers = [0u8; 64];
    let mut leads = [0u32; 64];
    let symbols = rate.octet_symbols();
    let m = symbols * count;
    rec.decide(rate, place, m, &mut numbers, &mut leads);
    let heard = hear_blocks::hear(rate, symbol, place, line, numbers, count, out);
    let least = hear_blocks::least::least_after(least, symbol, &leads, m);
    Part { heard, least }
}

// How many of so many octets the next block takes.
fn block_octets(rate: Rate, left: usize) -> usize
    ensures answer { BlockOf rate left result }
{
    left.min(64 / rate.octet_symbols())
}

// The octets that start at a place, as many as there is room for, from usable chips, and the smallest lead after them,
// with symbols of the frame numbered on from one. That number need not go with the place, and may be odd: header and
// payload both start with an even one, so a CCK symbol grew by a half turn more where its number in the frame is odd.
pub fn hear_octets(
    rec: Recording,
    rate: Rate,
    at: usize,
    symbol: usize,
    line: Line,
    least: Least,
    out: &mut [u8],
) -> Part
    requires { (at + octet_chips rate * length out.old ≤ length (taken_of rec))
        × AllUsable (taken_of rec) at (octet_chips rate * length out.old)
        × (line.phase < 4) × (symbol + octet_symbols rate * length out.old < 2 ^ 64) }
    ensures answer { PartHeard rate at (length out.old) (taken_of rec.entry) line symbol least result out.new }
{
    rec.is_countable();
    let chips = rate.octet_chips();
    let symbols = rate.octet_symbols();
    let mut part = Part {
        heard: Hearing { line, odd: None },
        least,
    };
    let mut k = 0;
    while k < out.len() {
        let count = block_octets(rate, out.len() - k);
        let place = at + chips * k;
        let number = symbol + symbols * k;
        let before = part.heard;
        let more = hear_block(
            rec,
            rate,
            place,
            number,
            before.line,
            part.least,
            count,
            &mut out[k..],
        );
        part = joined(before, more);
        k += count;
    }
    part
}
