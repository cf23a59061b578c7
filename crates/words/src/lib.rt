#![tactic(auto)]

// What C is told: an answer as words of four bytes at the front of a lent buffer, and the result that a call returns. No call has a
// `requires`: a refusal writes nothing, and neither is anything written into an answer that is too short, which is 252.
// The five calls that write begin alike, each with the size of its own answer. A must-fail edit makes each of these sizes
// another, as `read_answer_of_19`.
// 252 is a number here since it is the call's result, and no refusal of the library has it.
//   laying    words of four bytes, lowest first, in a row
//   results   the number for no with a value above it, and what a writer wrote
//   wire      packets and replies that were read      W9, W12
//   line      a body that was judged or forecast      L29, S22 to S25, S32
//   received  what bytes off the line did             J3, J10, J12
//   stepped   what a step did                         S1 to S5, S12
mod laying;
mod line;
mod received;
mod results;
mod stepped;
mod wire;

pub use line::{tell_forecast, tell_verdict};
pub use received::{tell_outcome, tell_received};
pub use results::tell_written;
pub use stepped::tell_stepped;
pub use wire::{tell_reading, tell_status};
