#![tactic(auto)]

// The IDs that a sign has completed since its reset, the last four of them (J1; C-23).
//   known  which are Repeats, which is told as the last, and one more      J4, J10, J14, J15, W10
//   sound  which of these parts of a record are sound                      R2, R5
// specs/Completed has them as a list, the newest first.
mod known;
mod sound;

pub use known::none;

// How many there are, and the IDs, the newest first. Room for IDs that aren't there holds zeros; 0 is an ID too. The IDs stand beside their
// number, as a record is bytes: every image is the image of its record (`image_again`), and soundness speaks of any of these bytes (`sound_of`).
#[derive(Clone, Copy)]
pub struct Completed {
    pub count: u8,
    pub ids: [u8; 4],
}
