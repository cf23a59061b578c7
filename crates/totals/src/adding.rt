// Totals made: of nothing, of one command, of two totals, of totals some times over, each unit by itself (S14).
ghost use Rattle.std.specs.Prelude.{◌≡◌};
ghost use Rattle.totals.specs.Totals.{none_of, cost_of, plus_of, times_of};

use crate::Totals;
use perform::Performed;
use units::{Amount, Millis, Scans, Steps};

impl Totals {
    // Nothing so far.
    pub fn none() -> Totals
        ensures { result ≡ none_of }
    {
        Totals {
            steps: Steps(0),
            scans: Scans(0),
            millis: Millis(0),
        }
    }

    // One command performed.
    pub fn cost(performed: Performed) -> Totals
        ensures { result ≡ cost_of performed }
    {
        Totals {
            steps: Steps(1),
            scans: performed.scans,
            millis: performed.millis,
        }
    }

    // These totals and those.
    pub fn plus(self, more: Totals) -> Totals
        ensures { result ≡ plus_of self more }
    {
        Totals {
            steps: self.steps.add(more.steps),
            scans: self.scans.add(more.scans),
            millis: self.millis.add(more.millis),
        }
    }

    // These totals, some times over.
    pub fn times(self, n: u8) -> Totals
        ensures { result ≡ times_of n self }
    {
        Totals {
            steps: self.steps.times(n),
            scans: self.scans.times(n),
            millis: self.millis.times(n),
        }
    }
}
