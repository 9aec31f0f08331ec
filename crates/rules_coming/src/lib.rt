// What is coming: the answer of the call that reads a recording's front only. Types only.
#![tactic(auto)]

// Number, place and LENGTH as the reader's; the chips of the whole frame; and the part of the recording that holds the
// payload's chips: `count` of them from the chip `at`.
#[repr(C)]
#[derive(Clone, Copy)]
pub struct Coming {
    pub number: u64,
    pub place: u64,
    pub rate: u64,
    pub length: u64,
    pub clock: u64,
    pub n: u64,
    pub used: u64,
    pub at: u64,
    pub count: u64,
}
