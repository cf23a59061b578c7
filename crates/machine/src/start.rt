// Runs as they begin: Ready (R5), or at the first command of a body (J11).
ghost use Rattle.std.specs.Prelude.{◌≡◌};
ghost use Rattle.machine.specs.Step.{outside, ready_of, started_of};

use crate::{Loop, Run};
use perform::Settings;

impl Loop {
    // No loop is open.
    pub fn none() -> Loop
        ensures { result ≡ outside }
    {
        Loop { place: 0, left: 0 }
    }
}

impl Run {
    // A run that is Ready with these settings.
    pub fn ready(settings: Settings) -> Run
        ensures { result ≡ ready_of settings }
    {
        Run::started(0, settings)
    }

    // A run of a body of this length from its first command.
    pub fn started(len: usize, settings: Settings) -> Run
        ensures { result ≡ started_of len settings }
    {
        Run {
            len,
            place: 0,
            inner: Loop::none(),
            settings,
        }
    }
}
