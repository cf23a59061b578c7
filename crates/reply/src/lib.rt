#![tactic(auto)]

// The sign's reply to a query, written for the sign and read for the sender. No call has a `requires`: each answers for
// any bytes.
//   letters  the last ID that a sign can say, its MID turned, its two letters   W10, W11
//   lays     a reply laid into a lent buffer                                    W10, W13, W18, N19, N32, N34
//   hears    a reply read                                                       W12, N19, N35
mod hears;
mod lays;
mod letters;

pub use hears::read_reply;
pub use lays::write_reply;

// What a reply tells of a sign: last completed ID, Busy or Ready, AUX sunk or floating. `last` is no `Option`: 41h for none is W10's own
// number, which C is told too.
#[derive(Clone, Copy, Debug, PartialEq, Eq)]
pub struct Status {
    pub last: u8,
    pub busy: bool,
    pub sink: bool,
}
