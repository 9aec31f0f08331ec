// The report's text: words and decimal numbers, line after line, onto a page of its own, and from there into the octet
// buffer. Whatever comes of it, the whole buffer is written.
#![tactic(auto)]

ghost use Rattle.std.specs.Prelude.{◌≡◌, [], ◌∷◌, ◌++◌, ◌+◌, ◌≤◌, length};
ghost use Rattle.rules_report.specs.Text.{decimal, places, rate_line, refused_line, refused_lines, airtime_line};
ghost use Rattle.rules_report.specs.Text.{lead_line, text_of, spelled_of, text_left};
ghost use Rattle.report_text.specs.Placed.{Placed, PutOn, pair_line, code_at, rate_lines};

use rules_report::{Report, Spelled};

// How many decimal digits x has.
fn digits_of(x: u64) -> usize
    ensures answer { result ≡ places 19 x }
{
    let mut rest = x;
    for k in 1..20 {
        if rest < 10 {
            return k;
        }
        rest /= 10;
    }
    20
}

// The rate code of an entry.
fn code_of(k: usize) -> u64
    ensures answer { result ≡ code_at k }
{
    match k {
        0 => 10,
        1 => 20,
        2 => 55,
        _ => 110,
    }
}

// Puts a number's digits into a row from a place on, the last one first, and answers where they end.
#[inline(never)]
fn put_digits(x: u64, at: usize, row: &mut [u8; 980]) -> usize
    requires { at + length (decimal x) ≤ 980 }
    ensures answer { Placed (decimal x) at row.old result row.new }
{
    let end = at + digits_of(x);
    let mut rest = x;
    for i in (at..end).rev() {
        row[i] = 48 + (rest % 10) as u8;
        rest /= 10;
    }
    end
}

// A page with room for the longest text, and where the octets put on it end.
#[derive(Clone, Copy)]
struct Page {
    row: [u8; 980],
    end: usize,
}

impl Page {
    // A number's digits. Inlined, where they end goes to the next word as a value, and is not read back from the page.
    #[inline(always)]
    fn put_number(&mut self, x: u64)
        requires { self.old.end + length (decimal x) ≤ 980 }
        ensures page { PutOn (decimal x) self.old self.new }
    {
        self.end = put_digits(x, self.end, &mut self.row);
    }

    // A word's octets. Inlined, its length is known where it is put, and no call is made to copy it.
    #[inline(always)]
    fn put_word(&mut self, word: &[u8])
        requires { self.old.end + length word.now ≤ 980 }
        ensures page { PutOn word.now self.old self.new }
    {
        let end = self.end + word.len();
        self.row[self.end..end].copy_from_slice(word);
        self.end = end;
    }

    // A word and a number.
    #[inline(always)]
    fn put_both(&mut self, word: &[u8], x: u64)
        requires { self.old.end + length (word.now ++ decimal x) ≤ 980 }
        ensures page { PutOn (word.now ++ decimal x) self.old self.new }
    {
        self.put_word(word);
        self.put_number(x);
    }

    // A line feed.
    fn end_line(&mut self)
        requires { self.old.end + 1 ≤ 980 }
        ensures page { PutOn (10 ∷ []) self.old self.new }
    {
        self.row[self.end] = 10;
        self.end += 1;
    }

    // Two words, each with its number, and a line feed.
    #[inline(always)]
    fn put_line(&mut self, first: &[u8], x: u64, second: &[u8], y: u64)
        requires { self.old.end + length (pair_line first.now x second.now y) ≤ 980 }
        ensures page { PutOn (pair_line first.now x second.now y) self.old self.new }
    {
        self.put_both(first, x);
        self.put_both(second, y);
        self.end_line();
    }

    // A rate's line.
    fn rate_line(&mut self, rate: u64, frames: u64, octets: u64)
        requires { self.old.end + length (rate_line rate frames octets) ≤ 980 }
        ensures page { PutOn (rate_line rate frames octets) self.old self.new }
    {
        self.put_both(b"rate ", rate);
        self.put_line(b" frames ", frames, b" octets ", octets);
    }

    // The lines of all four rates.
    fn rate_lines(&mut self, frames: [u64; 4], octets: [u64; 4])
        requires { self.old.end + length (rate_lines 4 frames octets) ≤ 980 }
        ensures page { PutOn (rate_lines 4 frames octets) self.old self.new }
    {
        for k in 0..4 {
            self.rate_line(code_of(k), frames[k], octets[k]);
        }
    }

    // The line of a refusal that was met, and nothing for one that was not.
    fn refused_line(&mut self, number: u64, count: u64)
        requires { self.old.end + length (refused_line number count) ≤ 980 }
        ensures page { PutOn (refused_line number count) self.old self.new }
    {
        if count != 0 {
            self.put_line(b"refused ", number, b" count ", count);
        }
    }

    // The lines of refusals 1 to 17.
    fn refused_lines(&mut self, refused: &[u64; 18])
        requires { self.old.end + length (refused_lines 17 refused.now) ≤ 980 }
        ensures page { PutOn (refused_lines 17 refused.now) self.old self.new }
    {
        for number in 1..18 {
            self.refused_line(number as u64, refused[number]);
        }
    }

    // The airtime's line.
    fn airtime_line(&mut self, airtime: u64)
        requires { self.old.end + length (airtime_line airtime) ≤ 980 }
        ensures page { PutOn (airtime_line airtime) self.old self.new }
    {
        self.put_both(b"airtime ", airtime);
        self.end_line();
    }

    // The line of the smallest lead, or of none.
    fn lead_line(&mut self, some: u64, lead: u64, recording: u64)
        requires { self.old.end + length (lead_line some lead recording) ≤ 980 }
        ensures page { PutOn (lead_line some lead recording) self.old self.new }
    {
        if some == 0 {
            self.put_word(b"lead none\n");
        } else {
            self.put_line(b"lead ", lead, b" recording ", recording);
        }
    }

    // The whole text.
    fn put_text(&mut self, report: Report)
        requires { self.old.end + length (text_of report) ≤ 980 }
        ensures page { PutOn (text_of report) self.old self.new }
    {
        self.rate_lines(report.frames, report.octets);
        self.refused_lines(&report.refused);
        self.airtime_line(report.airtime);
        self.lead_line(report.some, report.lead, report.recording);
    }
}

// The text and zeros to the buffer's end, or 17 and zeros where the buffer is shorter than the text.
pub fn text(report: Report, octets: &mut [u8]) -> Spelled
    ensures answer { result ≡ spelled_of report (length octets.old) }
    ensures octets { octets.new ≡ text_left report (length octets.old) }
{
    common_rows::fill(octets, 0);
    let mut page = Page {
        row: [0; 980],
        end: 0,
    };
    page.put_text(report);
    let count = page.end;
    if octets.len() < count {
        return Spelled {
            number: 17,
            octets: 0,
        };
    }
    let text = &page.row[..count];
    octets[..count].copy_from_slice(text);
    Spelled {
        number: 0,
        octets: count as u64,
    }
}
