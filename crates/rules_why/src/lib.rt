// Why a read is refused: the answer of the call that explains it. Types only.
#![tactic(auto)]

// Number and place as the reader's; what was expected and what was found. All four are 0 of a good read.
#[repr(C)]
#[derive(Clone, Copy)]
pub struct Reason {
    pub number: u64,
    pub place: u64,
    pub expected: u64,
    pub found: u64,
}
