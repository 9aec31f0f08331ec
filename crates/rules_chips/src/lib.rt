// What a chip is: soft samples, recorded chips, and their signed counts. Types only; no code.
#![tactic(auto)]

// A soft sample: I and Q as recorded.
#[derive(Clone, Copy)]
pub struct Sample {
    pub i: f32,
    pub q: f32,
}

// A recorded chip is one of three things. A `Hard` that is no phase and a `Soft` that is not usable
// count as lost.
#[derive(Clone, Copy)]
pub enum Chip {
    Lost,
    Hard(u8),
    Soft(Sample),
}

// I and Q in signed counts: a full chip is 1024.
#[derive(Clone, Copy)]
pub struct Counts {
    pub i: i32,
    pub q: i32,
}
