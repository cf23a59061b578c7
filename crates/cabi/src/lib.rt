#![tactic(auto)]

// The calls for C: numbers and lent bytes, as include/yurodekapi.h describes them. Some public calls of the library have none for C.
// No call has a `requires`: each answers for any numbers and any bytes. A call on a sign goes by the record in the image: 251 for an
// image of another size, 16 for an unsound record, 19 for a forbidden MID, 252 for an answer that is too short, then the method of
// `Sign`; a call without an image begins with 19. A refused call changes no lent byte. What an answer is told as stands in the crate
// `words`. 16, 19, 251 and 252 are numbers here, since the number is the call's result, and no refusal of the library has the last two.
//   loaded  the record in a lent image, and back; 16, 19 or 252 where an answer is too short
//   wire    packets and replies, read and written      W9, W12 to W18, N19
//   line    a body judged and forecast                 L29, S22 to S25, S32
//   unit    the sign over its image                    J3, J14 to J16, S1, S28, S29, N19
//   version the archive's version
mod line;
mod loaded;
mod unit;
mod version;
mod wire;

pub use line::{yd_forecast, yd_judge};
pub use unit::{yd_copy_body, yd_power_on, yd_receive, yd_repeat, yd_reply, yd_reset, yd_step};
pub use version::yd_version;
pub use wire::{
    yd_read_packet, yd_read_reply, yd_write_packet, yd_write_query, yd_write_reply, yd_write_reset,
    yd_write_transmission,
};
