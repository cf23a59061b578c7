#![tactic(auto)]

// What follows the letters of a command (L3): a text or a number, read from a place of a body. No public call
// has a `requires`; each answers for any bytes and any place.
//   bytes      the byte at a place, and the letters of a pair           L2, L5
//   kinds      the table of byte kinds                                  L4
//   text       a text's bytes up to its end                             L2, L4 to L6, N24, N25
//   number     one reader for every number                              L2, L8, N23
// The definitions that the contracts cite stand in specs/.
mod bytes;
mod kinds;
mod number;
mod text;

pub use bytes::{CARET, TILDE, byte_at};
pub use number::read_number;
pub use text::read_text;

// A parameter read: the place behind it, and its number, which is 0 of a text or of nothing. It is no `Option`, because what a step
// answers tells a number for every command (`values_of`).
#[derive(Clone, Copy)]
pub struct Parameter {
    pub next: usize,
    pub number: usize,
}

// What a number may be (L8): its least and greatest value, and its most digits.
#[derive(Clone, Copy)]
pub struct Range {
    pub least: u8,
    pub greatest: u8,
    pub digits: usize,
}
