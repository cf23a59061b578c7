#![tactic(auto)]

// The sign's record (J1): each call takes it whole and hands back the next one with its answer (J2, P7).
// No public call has a `requires`: each answers for any record and any bytes, 16 for an unsound record before all else.
//   sound    which records are sound                               R1 to R9
//   reset    power-on and reset                                    J14, J15
//   receive  the record after what `hear` makes of bytes           J3, J9 to J14
//   steps    one step of the running program                       S1, S11, S12
//   tell     the reply to a query, and a copy of the running body  J16, S28
mod receive;
mod reset;
mod sound;
mod steps;
mod tell;

use collect::Slots;
use completed::Completed;
use hear::Outcome;
use machine::Run;
use perform::Performed;
use refusal::Refusal;
use room::Room;

// The record: completed IDs, the slots of the packets being collected, one room, and the running program with the settings. The
// room holds the packets' data while Ready and the running body while Busy: Busy collects nothing, and Ready has no body.
#[derive(Clone, Copy)]
pub struct Sign {
    pub completed: Completed,
    pub slots: Slots,
    pub room: Room,
    pub run: Run,
}

// The record after a receive, its outcome, and the body that was released with zeros after it. The body stands beside the outcome, since
// `stays_of` says zeros where none is released, and C is told all 84 bytes (`received_bytes`).
#[derive(Clone, Copy)]
pub struct Received {
    pub sign: Sign,
    pub outcome: Result<Outcome, Refusal>,
    pub body: Room,
}

// The record after a reset, and its outcome: that of a reset packet (J14), or the refusal of an unsound record.
#[derive(Clone, Copy)]
pub struct Cleared {
    pub sign: Sign,
    pub outcome: Result<Outcome, Refusal>,
}

// The record after a step, and the step's answer.
#[derive(Clone, Copy)]
pub struct Stepped {
    pub sign: Sign,
    pub answer: Result<Option<Performed>, Refusal>,
}
