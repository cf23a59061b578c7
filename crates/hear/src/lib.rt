#![tactic(auto)]

// What bytes off the line make of the packets that a sign has collected (J3). Of the record it has the completed
// IDs, the slots and the room, and of the running program the length alone, 0 when Ready. The crate `sign` has it whole.
//   frame    completed IDs, slots and room, sound beside a body      R2, R4, R5, R7
//   join     a normal packet judged and joined                       J4 to J10, N12, N13
//   hearing  bytes read, and joined if they are a normal packet      J3, J13, J14, N16, N19
mod frame;
mod hearing;
mod join;

use collect::Slots;
use completed::Completed;
pub use frame::framed;
pub use hearing::hear;
use judge::Verdict;
use refusal::Refusal;

// What a sign makes of bytes that it doesn't refuse. A body released comes with its verdict and its length, and stands in the room.
#[derive(Clone, Copy)]
pub enum Outcome {
    Query,
    Reset,
    Repeat,
    Stored,
    Released { verdict: Verdict, len: usize },
}

// The outcome or the refusal, with the completed IDs and the slots as they are after it. The two go side by side through this crate: as one
// struct, and a packet's ID, N and position as another, they cost a query some twenty instructions, which misses its goal of speed.
#[derive(Clone, Copy)]
pub struct Heard {
    pub outcome: Result<Outcome, Refusal>,
    pub completed: Completed,
    pub slots: Slots,
}
