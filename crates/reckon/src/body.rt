// A body that is no longer than any program, so that each of its texts is measured to the end (S15).
ghost use Rattle.std.specs.Prelude.{◌≡◌, ◌%◌, ◌≤◌, length, take, drop};
ghost use Rattle.measure.specs.Width.{widths_of};
ghost use Rattle.perform.specs.Price.{answer_of};

use perform::{Performed, Settings, perform_at};
use program::Command;
use std::marker::Model;

// In a clause a body is the list of its bytes.
#[derive(Drop)]
pub(crate) struct Body<'a> {
    pub(crate) bytes: &'a [u8],
}

impl<'a> Model for Body<'a> {
    ghost use Rattle.std.specs.Prelude.{ℕ, ◌≤◌, List, length};

    ghost Value = { List ℕ };

    ghost view = { λ body. body.bytes.now };

    ghost invariant = { λ body. length body.bytes.now ≤ 84 };
}

impl<'a> Body<'a> {
    // The body of these bytes.
    pub(crate) fn new(bytes: &'a [u8]) -> Body<'a>
        requires { length bytes.now ≤ 84 }
        ensures { result ≡ bytes.now }
    {
        Body { bytes }
    }

    // A command of the body, performed at these settings. It has the hint for the reason that `added` has it.
    #[inline(always)]
    pub(crate) fn perform(&self, command: Command, settings: Settings) -> Performed
        ensures { result ≡ answer_of command.kind (command.number % 256) command.text command.len (widths_of (take command.len (drop command.text self.now))) settings }
    {
        perform_at(self.bytes, command, settings)
    }
}
