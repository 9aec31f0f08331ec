// Finding the start: what the call that looks for a front answers, and why it may refuse. Types only.
#![tactic(auto)]

use rules_calls::Told;

// Why no start is told, each with its number in an answer. None has a place or a LENGTH.
#[derive(Clone, Copy)]
pub enum NotFound {
    NoKind = 1,
    // promise: the number of offsets to try is 0 or above 4,096
    // rule: 6.4 (18), 6.17
    // code: find_start::find
    // with: is_offsets
    NoOffsets = 18,
    // promise: none of the offsets has a front that a read accepts
    // rule: 6.4 (19), 6.17
    // code: find_start::search
    // with: first_start
    NoStart = 19,
}

// What a search for a front finds: the smallest offset from which one is told, and what its header tells.
#[derive(Clone, Copy)]
pub struct Start {
    pub offset: usize,
    pub told: Told,
}

// The answer: number 0, the offset and what the header there tells, or a refusal's number.
#[repr(C)]
#[derive(Clone, Copy)]
pub struct Found {
    pub number: u64,
    pub offset: u64,
    pub rate: u64,
    pub length: u64,
    pub clock: u64,
    pub n: u64,
}
