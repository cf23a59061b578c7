#![tactic(auto)]

// The wire: one packet written. The crate `transmission` writes all packets of a body, `reader` reads packets, and
// `reply` writes and reads the sign's answer.
//   mid     the MIDs that no sign may have                                                  W8, N19
//   sum     the sum by additions that drop the carry, and the byte that brings it to 0      W7, P8
//   write   one packet of a body, a query, a reset     W1 to W6, W13 to W15, W17, W18, N19, N31 to N34
mod mid;
mod sum;
mod write;

pub use mid::{allowed, forbidden};
pub use sum::{checksum, sum_of};
pub use write::{AROUND, PART, total, write_packet, write_query, write_reset};
