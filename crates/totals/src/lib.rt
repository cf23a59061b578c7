#![tactic(auto)]

// Totals of steps, scans and milliseconds, each in its unit. No call has a `requires`: a sum that passes a unit's limit stays there.
//   adding   nothing, one command, a sum, and some times over   S14, S21, S22
mod adding;

use units::{Millis, Scans, Steps};

#[derive(Clone, Copy, PartialEq)]
pub struct Totals {
    pub steps: Steps,
    pub scans: Scans,
    pub millis: Millis,
}
