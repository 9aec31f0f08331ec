// The month's report: what the calls that count recordings, and the one that makes their text, answer. Types only.
#![tactic(auto)]

// What was counted. Rows of rates go by rate code, rising: 10, 20, 55, 110; `refused` goes by the refusal's number, up
// to 17. `lead` is the smallest of all frames, `recording` the first that has it, and `some` is 1; with no frame all
// three are 0.
#[repr(C)]
#[derive(Clone, Copy, Default)]
pub struct Report {
    pub seen: u64,
    pub frames: [u64; 4],
    pub octets: [u64; 4],
    pub refused: [u64; 18],
    pub airtime: u64,
    pub some: u64,
    pub lead: u64,
    pub recording: u64,
}

// The answer of a call that counts: 0 or 31, of a list also 7, and the report.
#[repr(C)]
#[derive(Clone, Copy)]
pub struct Counted {
    pub number: u64,
    pub report: Report,
}

// The answer of the call that makes the text: 0 and the text's octets, or 17.
#[repr(C)]
#[derive(Clone, Copy)]
pub struct Spelled {
    pub number: u64,
    pub octets: u64,
}
