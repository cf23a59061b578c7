#![tactic(auto)]

// A body written as packets. The crate `packet` writes one of them.
//   write   the whole transmission back to back      W13, W14, W16 to W18, P9, N19, N31, N32, N34
mod write;

pub use write::write_transmission;
