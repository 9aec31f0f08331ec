// The month's report kept: one recording more, read and counted, and a whole list of recordings at once.
#![tactic(auto)]

ghost use Rattle.std.specs.Prelude.{◌≡◌, true, ◌||◌, map, ◌≤◌, eqb, ltb};
ghost use Rattle.rules_report.specs.Totals.{Outcome, outcome_of, front_time};
ghost use Rattle.rules_report.specs.Report.{
  entry_of,
  with_frame,
  with_refusal,
  at_most,
  takes_more,
  counted_of,
  list_of,
};

use rules_calls::Record;
use rules_report::{Counted, Report};

// ---- whether a report takes one more

// Whether every number of a row is at most so much.
fn at_most(most: u64, row: &[u64]) -> bool
    ensures answer { result ≡ at_most most row.now }
{
    row.iter().all(|x| *x <= most)
}

// Whether a report can be one that was kept, with fewer than 1,000 seen.
fn takes_more(p: Report) -> bool
    ensures answer { result ≡ takes_more p }
{
    p.seen < 1000
        && at_most(1000, &p.frames)
        && at_most(4095000, &p.octets)
        && at_most(1000, &p.refused)
        && p.airtime <= 32952000
}

// ---- one reading more

// The entry of a rate, by its code.
fn entry_of(code: u64) -> usize
    ensures answer { result ≡ entry_of code }
{
    match code {
        10 => 0,
        20 => 1,
        55 => 2,
        _ => 3,
    }
}

// Microseconds of a front.
fn front_time(kind: u64) -> u64
    ensures answer { result ≡ front_time kind }
{
    if kind == 0 { 192 } else { 96 }
}

// Whether a frame's lead is to be kept: none was before, or it is smaller.
fn is_closer(some: u64, least: u64, lead: u64) -> bool
    ensures answer { result ≡ (eqb some 0 || ltb lead least) }
{
    some == 0 || lead < least
}

// One frame more: its octets, its airtime, and its lead if it is closer.
fn with_frame(p: Report, kind: u64, a: Record) -> Report
    requires { (takes_more p ≡ true) × (a.n ≤ 4095) × (a.length ≤ 32760) }
    ensures answer { result ≡ with_frame p (record { kind = kind; answer = a }) }
{
    let at = entry_of(a.rate);
    let closer = is_closer(p.some, p.lead, a.lead);
    let mut q = p;
    q.seen += 1;
    q.frames[at] += 1;
    q.octets[at] += a.n;
    q.airtime += front_time(kind) + a.length;
    if closer {
        q.some = 1;
        q.lead = a.lead;
        q.recording = p.seen;
    }
    q
}

// One refusal more, by its number.
fn with_refusal(p: Report, number: u64) -> Report
    requires { (takes_more p ≡ true) × (number ≤ 17) }
    ensures answer { (o : Outcome) → o.answer.number ≡ number → result ≡ with_refusal p o }
{
    let entry = number as usize;
    let mut q = p;
    q.seen += 1;
    q.refused[entry] += 1;
    q
}

// ---- the calls

// What a full read with room for 4,095 octets answers.
fn read(kind: u64, chips: &[u8]) -> Record
    ensures answer { result ≡ (outcome_of (record { kind = kind; chips = chips.now })).answer }
{
    let mut octets = [0u8; 4095];
    read_frames::read_hard(kind, chips, &mut octets)
}

// One recording more: 31, and the report as it stood, where it takes no more; else 0, whatever the reading comes to.
pub fn add(report: Report, kind: u64, chips: &[u8]) -> Counted
    ensures answer { result ≡ counted_of report (record { kind = kind; chips = chips.now }) }
{
    if !takes_more(report) {
        return Counted { number: 31, report };
    }
    let a = read(kind, chips);
    let more = if a.number == 0 {
        with_frame(report, kind, a)
    } else {
        with_refusal(report, a.number)
    };
    Counted {
        number: 0,
        report: more,
    }
}

// A whole list: 7 where there are not as many kinds as recordings; else the first 1,000, with 31 where there are more.
pub fn of_list(kinds: &[u64], list: &[&[u8]]) -> Counted
    ensures answer { result ≡ list_of kinds.now (map (λ r. r.now) list.now) }
{
    let mut report = Report::default();
    if kinds.len() != list.len() {
        return Counted { number: 7, report };
    }
    for (kind, chips) in kinds.iter().zip(list).take(1000) {
        report = add(report, *kind, *chips).report;
    }
    let number = if 1000 < list.len() { 31 } else { 0 };
    Counted { number, report }
}
