#![tactic(auto)]

// Packets read, over the layout that the crate `packet` writes. No call has a `requires`; it answers for any bytes.
//   read    a packet's bytes to its fields, or a refusal      W9, N19, N1 to N11
// proofs/ReadBack, Unique and Refusals join reading and writing: they are inverse on what they accept.
mod read;

pub use read::{Packet, read_packet};
