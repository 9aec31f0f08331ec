// Two recordings compared: the answer of the call that does it. Types only.
#![tactic(auto)]

use rules_calls::Record;

// Both records whole, as the reader answers them; how many chips and how many octets differ, whether or not their lists
// fit; and both payloads' octets where both recordings are accepted, else 0 and 0.
#[repr(C)]
#[derive(Clone, Copy)]
pub struct Compared {
    pub a: Record,
    pub b: Record,
    pub chips: u64,
    pub octets: u64,
    pub n_a: u64,
    pub n_b: u64,
}
