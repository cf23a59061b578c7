// Power-on (J15) and reset (J14).
ghost use Rattle.std.specs.Prelude.{◌≡◌};
ghost use Rattle.machine.specs.Step.{ready_of};
ghost use Rattle.sign.specs.Reset.{start_settings, fresh_of, cleared_of, power_on};

use crate::{Cleared, Sign};
use collect::begun;
use completed::none;
use hear::Outcome;
use machine::Run;
use perform::Settings;
use refusal::Refusal;

// A run that is Ready with the settings of a reset, where threshold and brightness are these.
pub(crate) fn rested(dim: u8, bright: u8) -> Run
    ensures { result ≡ ready_of (start_settings dim bright) }
{
    Run::ready(Settings {
        pace: 4,
        scans: 1,
        sink: 0,
        dim,
        bright,
    })
}

// The record that a reset leaves where threshold and brightness are these.
fn fresh(dim: u8, bright: u8) -> Sign
    ensures { result ≡ fresh_of dim bright }
{
    let completed = none();
    let slots = begun(0, 0);
    let run = rested(dim, bright);
    Sign {
        completed,
        slots,
        room: [0; room::SIZE],
        run,
    }
}

impl Sign {
    // The record of a sign that was just switched on.
    pub fn power_on() -> Sign
        ensures { result ≡ power_on }
    {
        fresh(16, 0)
    }

    // The record after a reset; 16 for an unsound one.
    pub fn reset(self) -> Cleared
        ensures { result ≡ cleared_of self }
    {
        if !self.sound() {
            return Cleared {
                sign: self,
                outcome: Err(Refusal::Unsound),
            };
        }
        let settings = self.run.settings;
        Cleared {
            sign: fresh(settings.dim, settings.bright),
            outcome: Ok(Outcome::Reset),
        }
    }
}
