#![tactic(auto)]

// A whole body judged (L29): accepted, endless or not (L28), or refused with what is wrong and where (N21 to N28).
// No public call has a `requires`: each answers for any bytes and any place.
//   walk    the commands from the left, and a place among them      L26, L28, N0, N26, R7, R8
//   begin   the refusals before any command                         N28, N21
//   whole   a whole body judged                                     L28, L29, N0
//   places  where a place stands, and the command there             R7, R8
// The crate `loops` judges one command among those before it.
mod begin;
mod places;
mod walk;
mod whole;

pub use begin::front;
pub use places::{find, stand};
use program::Command;
use refusal::Fault;
pub use whole::judge;

// How an accepted body goes: it comes to an end, or it never does.
#[derive(Clone, Copy)]
pub enum Ending {
    Finite,
    Endless,
}

// A body judged: how it goes, or why it is refused and where.
pub type Verdict = Result<Ending, Fault>;

// Where a command of an accepted body stands: outside loops, or inside the loop with this place behind its `L` and this number.
// Two cases with their names and no `Option` of a loop, because what `stand` answers has an `Option` around them.
#[derive(Clone, Copy)]
pub enum Standing {
    Outside,
    Inside(usize, usize),
}

// A place found in an accepted body: where it stands, and the command there.
#[derive(Clone, Copy)]
pub struct Found {
    pub standing: Standing,
    pub command: Command,
}

// A body's commands accepted: how they go, and the place that was looked for, if one of them is there.
#[derive(Clone, Copy)]
struct Walked {
    ending: Ending,
    found: Option<Found>,
}
