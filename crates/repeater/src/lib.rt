#![tactic(auto)]

// The driver's repeater: it gets a copy of the running body, a step's text place and length, and the standing line.
// Neither call has a `requires`: a stretch that isn't within the body is the standing line.
//   stretch  the stretch of the body that a step's text is, or the standing line   S29, S30, P10
mod stretch;

pub use stretch::{repeat, shows};
