// Finds the start of a front in a hard recording: the smallest of so many offsets from which a read meets none of 8 to
// 15. An SFD is looked for at 256 offsets at once, and a whole front is read only where one is right.
#![tactic(auto)]

ghost use Rattle.std.specs.Prelude.{◌≡◌, ℕ, ◌+◌, ◌≤◌, ◌<◌, length, get_or, drop, Ok, Err};
ghost use Rattle.rules_chips.specs.Chips.{hard_recording};
ghost use Rattle.rules_frame.specs.Frame.{front_chips};
ghost use Rattle.rules_reading.specs.Reading.{front_of};
ghost use Rattle.rules_finding.specs.Finding.{is_offsets, start_or, first_start, finding_of, found_of};
ghost use Rattle.rules_finding.proofs.Laws.{Missed};

use choose_recorders::Recording;
use rules_calls::{Reader, Refusal, Told};
use rules_finding::{Found, NotFound, Start};
use rules_frame::Kind;
use rules_rates::Rate;

// ---- answers

// A refusal in numbers: all else is 0.
fn refused(e: NotFound) -> Found
    ensures answer { result ≡ found_of (Err e) }
{
    Found {
        number: e as u64,
        offset: 0,
        rate: 0,
        length: 0,
        clock: 0,
        n: 0,
    }
}

// A start's offset, and what its header tells, in numbers.
fn started(start: Start) -> Found
    ensures answer { result ≡ found_of (Ok start) }
{
    let Start { offset, told } = start;
    Found {
        number: 0,
        offset: offset as u64,
        rate: told.rate.code(),
        length: told.length as u64,
        clock: told.clock as u64,
        n: told.n as u64,
    }
}

// ---- fronts

// What the front from an offset on tells.
fn front_at(kind: Kind, chips: &[u8], at: usize) -> Result<Told, Refusal>
    requires { at ≤ length chips.now }
    ensures answer { result ≡ front_of kind (drop at (hard_recording chips.now)) }
{
    read_fronts::read_front(Reader::Ours, Recording::Hard(&chips[at..]), kind).front
}

// Whether a front that tells starts at an offset; it is not read where there is no mark.
fn try_at(kind: Kind, chips: &[u8], at: usize, mark: u8) -> Result<Start, NotFound>
    requires { (at ≤ length chips.now)
        × (mark ≡ 0 → Missed (front_of kind (drop at (hard_recording chips.now)))) }
    ensures answer { result ≡
        start_or at (front_of kind (drop at (hard_recording chips.now))) (Err NotFound.NoStart) }
{
    if mark == 0 {
        return Err(NotFound::NoStart);
    }
    match front_at(kind, chips, at) {
        Err(_) => Err(NotFound::NoStart),
        Ok(told) => Ok(Start { offset: at, told }),
    }
}

// The first of so many offsets at which one starts, where those without a mark have none.
fn seek(
    kind: Kind,
    chips: &[u8],
    at: usize,
    count: usize,
    marks: &[u8; 512],
) -> Result<Start, NotFound>
    requires { (count ≤ 256) × (at + count ≤ length chips.now)
        × ((j : ℕ) → j < count → get_or marks.now j 0 ≡ 0
        → Missed (front_of kind (drop (at + j) (hard_recording chips.now)))) }
    ensures answer { result ≡ first_start kind at count (drop at (hard_recording chips.now)) }
{
    if !find_sweep::any(marks) {
        return Err(NotFound::NoStart);
    }
    for j in 0..count {
        if let Ok(start) = try_at(kind, chips, at + j, marks[j]) {
            return Ok(start);
        }
    }
    Err(NotFound::NoStart)
}

// ---- the search

// Of so many offsets those that have the chips of a front behind them: the first so many.
fn tries(kind: Kind, chips: usize, offsets: usize) -> usize
    ensures answer { (result ≤ offsets) × (0 < result → result + front_chips kind ≤ chips + 1)
        × ((j : ℕ) → result ≤ j → j < offsets → chips < j + front_chips kind) }
{
    let front = common_kinds::front_chips(kind);
    if chips < front {
        return 0;
    }
    (chips - front + 1).min(offsets)
}

// The search over all of them, 256 at once.
fn search(kind: Kind, chips: &[u8], offsets: usize) -> Result<Start, NotFound>
    requires { offsets ≤ 4096 }
    ensures answer { result ≡ first_start kind 0 offsets (hard_recording chips.now) }
{
    let tried = tries(kind, chips.len(), offsets);
    let from = common_kinds::preamble_chips(kind) - 264;
    let sfd = common_header::sfd_of(kind);
    let low = (sfd % 256) as u8;
    let high = (sfd / 256) as u8;
    let mut halves = [0u8; 512];
    let mut marks = [0u8; 512];
    let mut known: usize = 0;
    for at in (0..tried).step_by(256) {
        let count = (tried - at).min(256);
        find_sweep::decide(chips, from + at, known, count + 253, &mut halves);
        find_sweep::marks(low, high, &halves, &mut marks);
        if let Ok(start) = seek(kind, chips, at, count, &marks) {
            return Ok(start);
        }
        find_sweep::advance(&mut halves);
        known = 253;
    }
    Err(NotFound::NoStart)
}

// Whether so many offsets are tried: 1 to 4,096.
fn is_offsets(offsets: u64) -> bool
    ensures answer { result ≡ is_offsets offsets }
{
    (1..=4096).contains(&offsets)
}

// The start, or why it is not told: 1, then 18, then the search.
fn start_of(kind: u64, chips: &[u8], offsets: u64) -> Result<Start, NotFound>
    ensures answer { result ≡ finding_of kind offsets (hard_recording chips.now) }
{
    if !common_kinds::is_kind(kind) {
        return Err(NotFound::NoKind);
    }
    if !is_offsets(offsets) {
        return Err(NotFound::NoOffsets);
    }
    search(common_kinds::kind_of(kind), chips, offsets as usize)
}

// Finds the start.
pub fn find(kind: u64, chips: &[u8], offsets: u64) -> Found
    ensures answer { result ≡ found_of (finding_of kind offsets (hard_recording chips.now)) }
{
    match start_of(kind, chips, offsets) {
        Ok(start) => started(start),
        Err(e) => refused(e),
    }
}
