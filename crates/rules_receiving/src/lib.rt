// A receiver of hard chips that come in batches: what it holds between two calls. Types only.
#![tactic(auto)]

use rules_calls::Record;

// What hearing goes on from in the middle of a section: the smallest lead so far and its symbol, the line behind the last
// whole octet, and the phase of the last whole symbol.
#[repr(C)]
#[derive(Clone, Copy)]
pub struct Ear {
    pub lead: usize,
    pub symbol: usize,
    pub past: u8,
    pub phase: u8,
    pub last: u8,
}

// How far a receiver has come. status: 0 shut, 1 the front comes, 2 the front told of a payload, 3 refused whatever
// follows.
#[repr(C)]
#[derive(Clone, Copy)]
pub struct Progress {
    pub status: u64,
    pub kind: u64,
    // the octet buffer's length
    pub room: usize,
    // chips of the frame that have come
    pub count: usize,
    // status 3: the refusal
    pub number: u64,
    pub place: usize,
    // status 2: what the front told; LENGTH also in status 3
    pub rate: u64,
    pub length: usize,
    pub n: usize,
    pub clock: u64,
    // one more than the place of the section's first unusable chip, and of its first symbol grown by 1 or 3; 0 for none
    pub bad: usize,
    pub odd: usize,
    pub ear: Ear,
}

// A receiver, numbers and rows only, so that a host may own it. All zeros: never opened.
#[repr(C)]
#[derive(Clone, Copy)]
pub struct Receiver {
    pub progress: Progress,
    // the chips of an octet that is not whole
    pub hold: [u8; 88],
    // the preamble's octets and the header's
    pub preamble: [u8; 18],
    pub header: [u8; 6],
}

// The answer of open and feed, and the receiver after it.
#[derive(Clone, Copy)]
pub struct Fed {
    pub receiver: Receiver,
    pub answer: u64,
}

// The answer of close, and the receiver after it.
#[derive(Clone, Copy)]
pub struct Closed {
    pub receiver: Receiver,
    pub answer: Record,
}
