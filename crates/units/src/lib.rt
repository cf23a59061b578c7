#![tactic(auto)]

// Steps, shifts, scans and milliseconds (S14): one tuple struct a unit, with its own sum and its own conversion to the
// next (P11). A sum or a product past 64 bits stays at the greatest number instead of wrapping, so that every call answers.
// Each unit has its own `impl`s, here and in `print`, as the gate refuses those that a macro of this repository writes.
//   amount   what the four share: a sum and some times over, each within one unit
//   print    how each prints
ghost use Rattle.std.specs.Prelude.{◌≡◌, ◌*◌};
ghost use Rattle.units.specs.Units.{scans_of, millis_of};

mod amount;
mod print;

pub use amount::Amount;

#[derive(Clone, Copy, PartialEq)]
pub struct Steps(pub u64);

#[derive(Clone, Copy, PartialEq)]
pub struct Shifts(pub u64);

#[derive(Clone, Copy, PartialEq)]
pub struct Scans(pub u64);

#[derive(Clone, Copy, PartialEq)]
pub struct Millis(pub u64);

impl Amount for Steps {
    ghost count = { λ steps. steps.0 };

    fn of(number: u64) -> Steps {
        Steps(number)
    }

    fn number(self) -> u64 {
        self.0
    }
}

impl Amount for Shifts {
    ghost count = { λ shifts. shifts.0 };

    fn of(number: u64) -> Shifts {
        Shifts(number)
    }

    fn number(self) -> u64 {
        self.0
    }
}

impl Amount for Scans {
    ghost count = { λ scans. scans.0 };

    fn of(number: u64) -> Scans {
        Scans(number)
    }

    fn number(self) -> u64 {
        self.0
    }
}

impl Amount for Millis {
    ghost count = { λ millis. millis.0 };

    fn of(number: u64) -> Millis {
        Millis(number)
    }

    fn number(self) -> u64 {
        self.0
    }
}

impl Shifts {
    // The scans of these shifts, at some scans for each.
    pub fn scans(self, each: u8) -> Scans
        ensures { result.0 ≡ scans_of self.0 each }
    {
        Scans(self.0.saturating_mul(each as u64))
    }
}

impl Scans {
    // The milliseconds of these scans at a pace, rounded up.
    pub fn millis(self, pace: u8) -> Millis
        ensures { result.0 ≡ millis_of self.0 pace }
    {
        let by = pace as u64 + 5;
        let rest = self.0 % by;
        let last = (200 * rest + (by - 1)) / by;
        Millis((self.0 / by).saturating_mul(200).saturating_add(last))
    }
}

impl Millis {
    // Some tenths of a second.
    pub fn tenths(n: u8) -> Millis
        ensures { result.0 ≡ 100 * n }
    {
        Millis(100 * n as u64)
    }
}
