#![tactic(auto)]

// The command language: one command read at a place of a body. The crate `params` reads what follows its letters,
// `measure` measures a text, and `judge` judges a whole body. No call has a `requires`; each answers for any bytes and
// any place.
//   table      the letters of each command and its form                 L9 to L24
//   reader     one command at a place, or its refusal 22 to 25          L2, L3, N22 to N25
//   letters    a command's letters in print                             L9 to L24
// The definitions that the contracts cite stand in specs/: Table, Command and Answers.
mod letters;
mod reader;
mod table;

use params::Range;
pub use reader::read_command;

// The sixteen commands, by their letters; `Scans` is `=`. They are numbered from 1 where a kind is told as a number (S2).
#[derive(Clone, Copy, Debug, PartialEq, Eq)]
pub enum Kind {
    II = 1,
    IA,
    IB,
    S,
    L,
    E,
    F,
    R,
    XS,
    XF,
    P,
    Scans,
    W,
    XD,
    XB,
    Y,
}

// What follows a command's letters: a text, nothing, or a number of this range.
#[derive(Clone, Copy)]
pub enum Form {
    Text,
    Bare,
    Number(Range),
}

// The row of the table that a command's letters name, with how many bytes the caret and the letters take.
#[derive(Clone, Copy)]
pub struct Row {
    pub kind: Kind,
    pub form: Form,
    pub letters: usize,
}

// One command: `next` is the place behind it. What it lacks is 0 and no `Option`, which performing it would take apart only to tell the 0 of
// the rules (S2 to S4). The number is no byte: `turned` (loops) and `perform` take a command with any number.
#[derive(Clone, Copy)]
pub struct Command {
    pub next: usize,
    pub number: usize,
    pub text: usize,
    pub len: usize,
    pub kind: Kind,
}
