#![tactic(auto)]

// The packets that a sign has collected of a transmission (J1): a slot for each position, and what makes them sound.
// The data stand in a room beside the slots, which is lent.
//   sound    which slots obey the packet rules, and how many are held     R4, R5, W5
//   joining  whether data are equal, and slots that hold nothing yet      J6, J8
// specs/Slots has the slots and the data joined by position; specs/Sound the soundness of a collection.
mod joining;
mod sound;

pub use joining::{begun, same};
pub use sound::held;

// The positions that a packet may have.
pub const POSITIONS: usize = 6;

// The most data that a packet has, which is what a slot has room for. This crate stands on none of the wire, so it and `packet` each name
// the rules' 14.
pub const PART: usize = 14;

// A length for each position.
pub type Lengths = [u8; POSITIONS];

// The ID being collected with the lengths of its packets: `total` 0 is none, a length of 0 a position that isn't held. The data of
// position p stand in the room from byte 14 p on. Both are numbers and no `Option`s, as a record is bytes: every image is the image of its
// record (`image_again`), and soundness speaks of records with any of these bytes (`sound_of`).
#[derive(Clone, Copy)]
pub struct Slots {
    pub id: u8,
    pub total: u8,
    pub lens: Lengths,
}
