#![tactic(auto)]

// A running program: its place and one step of it. The crate `reckon` forecasts all its steps.
//   start    a run that is Ready, and one just started             R5, J11
//   sound    which runs are sound                                  R3, R5 to R8
//   steps    one step: a command performed and the next run        S1, S6 to S13, N16
// A run holds its body's length; the body itself is lent beside it, at the front of a room, and no step changes it.
// specs/Line has the commands that a body performs, which the forecast and the promises speak of.
mod sound;
mod start;
mod steps;

use perform::{Performed, Settings};
use refusal::Refusal;

// The open loop: the place behind its `L` and the count left, both 0 outside loops.
// No `Option`: a record is bytes, and `sound_of` and `image_again` (image) speak of records with any of these bytes.
#[derive(Clone, Copy, PartialEq)]
pub struct Loop {
    pub place: usize,
    pub left: u8,
}

// The running body's length and the place in it, the open loop, and the settings. A length of 0 is Ready.
// No `Option`: a record is bytes, and `sound_of` and `image_again` (image) speak of records with any of these bytes.
#[derive(Clone, Copy)]
pub struct Run {
    pub len: usize,
    pub place: usize,
    pub inner: Loop,
    pub settings: Settings,
}

// A step's answer with the run after it: the command performed, none where the run is Ready, or the refusal.
// `sign::Stepped` is a type of its own: the definition `step_of` of each crate names its field, `run` here and `sign` there.
#[derive(Clone, Copy)]
pub struct Stepped {
    pub run: Run,
    pub answer: Result<Option<Performed>, Refusal>,
}
