// Recordings: what reading asks of chips that are lent, whatever recorded them. A recorder is a variant here, its
// chips in a crate of its own, and an arm in the methods below.
#![tactic(auto)]

ghost use Rattle.std.specs.Prelude.{◌≡◌, true, not, ◌+◌, ◌*◌, ◌-◌, ◌^◌, ◌≤◌, ◌<◌, length, get_or, take, drop};
ghost use Rattle.rules_rates.specs.Rates.{symbol_chips};
ghost use Rattle.rules_chips.specs.Chips.{unusable, is_unusable};
ghost use Rattle.rules_reading.specs.Reading.{first_unusable};
ghost use Rattle.choose_recorders.specs.Rows.{taken_of};
ghost use Rattle.choose_recorded.specs.Recorded.{AllUsable, DecidedAt, LeadsAt};

use rules_rates::Rate;

// Chips as they are lent, by what recorded them: a row of octets, two rows of f32, or a row of signed bytes.
#[derive(Clone, Copy)]
pub enum Recording<'a> {
    Hard(&'a [u8]),
    Soft { i: &'a [f32], q: &'a [f32] },
    Bytes(&'a [i8]),
}

impl<'a> Recording<'a> {
    // How many chips a recording has.
    pub fn chip_count(self) -> usize
        ensures answer { result ≡ length (taken_of self.entry) }
    {
        match self {
            Recording::Hard(octets) => octets.len(),
            Recording::Soft { i, q } => i.len().min(q.len()),
            Recording::Bytes(bytes) => bytes.len() / 2,
        }
    }

    // That an index counts a recording's chips. Nothing is left of it at run time: proofs ask it.
    pub fn is_countable(self)
        ensures few { length (taken_of self.entry) < 2 ^ 64 }
    {
        let _count = self.chip_count();
    }

    // Whether the chip at a place is usable.
    fn usable_at(self, at: usize) -> bool
        requires { at < length (taken_of self) }
        ensures answer { result ≡ not (is_unusable (get_or (taken_of self.entry) at unusable)) }
    {
        match self {
            Recording::Hard(octets) => choose_hard::usable_at(octets, at),
            Recording::Soft { i, q } => choose_soft::usable_at(i, q, at),
            Recording::Bytes(_) => true,
        }
    }

    // Whether 64 chips from a place are usable, as far as a yes.
    fn clean(self, at: usize) -> bool
        requires { at + 64 ≤ length (taken_of self) }
        ensures answer { result ≡ true → AllUsable (taken_of self.entry) at 64 }
    {
        match self {
            Recording::Hard(octets) => choose_hard::clean(octets, at),
            Recording::Soft { i, q } => choose_soft::clean(i, q, at),
            Recording::Bytes(_) => true,
        }
    }

    // Over clean blocks of 64 chips: what is found from there on is what is found from the start.
    fn skip_clean(self, from: usize, to: usize) -> usize
        requires { to ≤ length (taken_of self) }
        ensures answer { first_unusable from (take (to - from) (drop from (taken_of self.entry)))
            ≡ first_unusable result (take (to - result) (drop result (taken_of self.entry))) }
    {
        let mut at = from;
        while at < to && 64 <= to - at && self.clean(at) {
            at += 64;
        }
        at
    }

    // The first unusable chip of those from one place up to another.
    pub fn first_unusable(self, from: usize, to: usize) -> Option<usize>
        requires { to ≤ length (taken_of self) }
        ensures answer { result ≡ first_unusable from (take (to - from) (drop from (taken_of self.entry))) }
    {
        let start = self.skip_clean(from, to);
        for at in start..to {
            if !self.usable_at(at) {
                return Some(at);
            }
        }
        None
    }

    // m symbols of 1 or 2 Mbit/s from a place.
    fn barkers(self, at: usize, m: usize, numbers: &mut [u8; 64], leads: &mut [u32; 64])
        requires { (m ≤ 64) × (at + 11 * m ≤ length (taken_of self)) × AllUsable (taken_of self) at (11 * m)
            × (length numbers.old ≡ 64) × (length leads.old ≡ 64) }
        ensures numbers { DecidedAt Rate.One (taken_of self.entry) at m numbers.new }
        ensures leads { LeadsAt Rate.One (taken_of self.entry) at m leads.new }
    {
        match self {
            Recording::Hard(octets) => choose_hard::barkers(octets, at, m, numbers, leads),
            Recording::Soft { i, q } => choose_soft::barkers(i, q, at, m, numbers, leads),
            Recording::Bytes(bytes) => choose_bytes::barkers(bytes, at, m, numbers, leads),
        }
    }

    // m symbols of 5.5 Mbit/s from a place.
    fn fives(self, at: usize, m: usize, numbers: &mut [u8; 64], leads: &mut [u32; 64])
        requires { (m ≤ 64) × (at + 8 * m ≤ length (taken_of self)) × AllUsable (taken_of self) at (8 * m)
            × (length numbers.old ≡ 64) × (length leads.old ≡ 64) }
        ensures numbers { DecidedAt Rate.Five (taken_of self.entry) at m numbers.new }
        ensures leads { LeadsAt Rate.Five (taken_of self.entry) at m leads.new }
    {
        match self {
            Recording::Hard(octets) => choose_hard::fives(octets, at, m, numbers, leads),
            Recording::Soft { i, q } => choose_soft::fives(i, q, at, m, numbers, leads),
            Recording::Bytes(bytes) => choose_bytes::fives(bytes, at, m, numbers, leads),
        }
    }

    // m symbols of 11 Mbit/s from a place.
    fn elevens(self, at: usize, m: usize, numbers: &mut [u8; 64], leads: &mut [u32; 64])
        requires { (m ≤ 64) × (at + 8 * m ≤ length (taken_of self)) × AllUsable (taken_of self) at (8 * m)
            × (length numbers.old ≡ 64) × (length leads.old ≡ 64) }
        ensures numbers { DecidedAt Rate.Eleven (taken_of self.entry) at m numbers.new }
        ensures leads { LeadsAt Rate.Eleven (taken_of self.entry) at m leads.new }
    {
        match self {
            Recording::Hard(octets) => choose_hard::elevens(octets, at, m, numbers, leads),
            Recording::Soft { i, q } => choose_soft::elevens(i, q, at, m, numbers, leads),
            Recording::Bytes(bytes) => choose_bytes::elevens(bytes, at, m, numbers, leads),
        }
    }

    // The numbers of the words that m symbols from a place are decided as, up to 64, and their leads. Recorder and rate
    // are looked at once for all of them.
    // Inlined, and the loops that it calls are not: a caller that knows recorder or rate looks at none, and each loop
    // is compiled as if it stood alone. In one function with the others it takes up to 1 in 100 instructions more.
    #[inline(always)]
    pub fn decide(
        self,
        rate: Rate,
        at: usize,
        m: usize,
        numbers: &mut [u8; 64],
        leads: &mut [u32; 64],
    )
        requires { (m ≤ 64) × (at + symbol_chips rate * m ≤ length (taken_of self))
            × AllUsable (taken_of self) at (symbol_chips rate * m) × (length numbers.old ≡ 64)
            × (length leads.old ≡ 64) }
        ensures numbers { DecidedAt rate (taken_of self.entry) at m numbers.new }
        ensures leads { LeadsAt rate (taken_of self.entry) at m leads.new }
    {
        match rate {
            Rate::One | Rate::Two => self.barkers(at, m, numbers, leads),
            Rate::Five => self.fives(at, m, numbers, leads),
            Rate::Eleven => self.elevens(at, m, numbers, leads),
        }
    }
}
