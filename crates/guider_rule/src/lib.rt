// What a guider is, the rule that it keeps, and where its guides are after a frame: structs and theory without code.
#![tactic(auto)]

use refusal::Refusal;

// A star to follow: its identity, which is a number of a catalogue, and its position in 1/256 pixel.
#[derive(Clone, Copy)]
pub struct Sighting {
    pub identity: u32,
    pub x: u64,
    pub y: u64,
}

// A guide: the star's identity, its last position, and how many frames in a row it was missed.
#[derive(Clone, Copy)]
pub struct Guide {
    pub identity: u32,
    pub x: u64,
    pub y: u64,
    pub misses: u64,
}

// Half the side of the boxes in 1/256 pixel, and the guides: the first count of them.
// Stays: an array with its count beside it, since mnemathor_guider_frame keeps all four places in the 18 numbers of a lent room, and without a heap.
#[derive(Clone, Copy)]
pub struct Guider {
    pub half: u64,
    pub count: usize,
    pub guides: [Guide; 4],
}

// What a call gives: its outcome, and the guider.
// Stays: the guider beside the outcome and no Result of it. A refused call hands back a guider too, as the clauses `value` of guider::start and guider::frame
// say: of a start zeros, and of a frame the one that it was handed.
#[derive(Clone, Copy)]
pub struct Guided {
    pub outcome: Result<(), Refusal>,
    pub guider: Guider,
}
