#![tactic(auto)]

// One command judged among those before it, and the rule of loops. No public call has a `requires`: each answers for
// any command, any place and any loop.
//   structure  the rule of loops, 26, and which loop stands open       L25 to L27, N26
//   single     one command judged among those before it                N0, N27, N26
// specs/Token has a command as the structure of a program sees it, and a body's list of them. The crate `judge` judges a whole body.
mod single;
mod structure;

pub use single::turned;
pub use structure::role as role_of;

// What a command does to the structure of a program: nothing, opens a loop, or one of the three ends.
#[derive(Clone, Copy)]
pub enum Role {
    Plain,
    Repeat,
    Close,
    Forever,
    Again,
}

// An open loop: the place of its `L`, the place behind it, and its number, which has the width of the places: a byte beside them is
// followed by seven unused ones, which judging copied with each command (it took a sixth to a third more).
#[derive(Clone, Copy)]
pub struct Open {
    pub caret: usize,
    pub behind: usize,
    pub number: usize,
}

// Where judging stands: outside loops, within one, or behind an `F` or `R`.
#[derive(Clone, Copy)]
pub enum Flow {
    Free,
    Within(Open),
    Ended,
}

// One command judged: the place behind it, and how judging goes on there.
#[derive(Clone, Copy)]
pub struct Turn {
    pub next: usize,
    pub flow: Flow,
}
