// The store of a table's radio settings: its entries, and what a read of it answers. Types only; no code.
#![tactic(auto)]

// An entry of the table of contents: a tag, where its body starts, and how many octets the body has.
#[derive(Clone, Copy)]
pub struct Entry {
    pub tag: usize,
    pub offset: usize,
    pub size: usize,
}

// The answer of the call that reads: 0 and the three settings, or the refusal and zeros.
#[repr(C)]
#[derive(Clone, Copy)]
pub struct Settings {
    pub number: u64,
    pub kind: u64,
    pub rate: u64,
    pub phase: u64,
}
