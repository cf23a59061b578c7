// How units print: their number alone.
ghost use Rattle.std.specs.Prelude.{Some, decimal};

use crate::{Millis, Scans, Shifts, Steps};
use std::fmt;

impl fmt::Display for Steps {
    ghost output = { λ steps. Some (decimal steps.0) };

    fn fmt<W: fmt::Write>(&self, f: &mut fmt::Formatter<W>) -> fmt::Result {
        fmt::Display::fmt(&self.0, f)
    }
}

impl fmt::Display for Shifts {
    ghost output = { λ shifts. Some (decimal shifts.0) };

    fn fmt<W: fmt::Write>(&self, f: &mut fmt::Formatter<W>) -> fmt::Result {
        fmt::Display::fmt(&self.0, f)
    }
}

impl fmt::Display for Scans {
    ghost output = { λ scans. Some (decimal scans.0) };

    fn fmt<W: fmt::Write>(&self, f: &mut fmt::Formatter<W>) -> fmt::Result {
        fmt::Display::fmt(&self.0, f)
    }
}

impl fmt::Display for Millis {
    ghost output = { λ millis. Some (decimal millis.0) };

    fn fmt<W: fmt::Write>(&self, f: &mut fmt::Formatter<W>) -> fmt::Result {
        fmt::Display::fmt(&self.0, f)
    }
}
