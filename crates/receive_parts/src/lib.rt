// Chips of a part of a frame as they come: whole octets heard straight from a batch, or a piece behind the chips that
// are held. Preamble, header and payload alike.
#![tactic(auto)]

use rules_receiving::Ear;

pub mod heard;
pub mod taken;

// What a piece leaves: what hearing goes on from, the first unusable chip, and the first symbol grown by 1 or 3.
#[derive(Clone, Copy)]
pub struct Piece {
    pub ear: Ear,
    pub bad: Option<usize>,
    pub odd: Option<usize>,
}

// A piece, and how many chips of a batch it took.
#[derive(Clone, Copy)]
pub struct Taking {
    pub piece: Piece,
    pub taken: usize,
}

// Symbols looked at: the first one grown by 1 or 3, and the phase of the last.
#[derive(Clone, Copy)]
pub struct Grown {
    pub odd: Option<usize>,
    pub last: u8,
}
