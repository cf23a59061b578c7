// The refusals that come before any command: N28, then N21.
ghost use Rattle.std.specs.Prelude.{◌≡◌};
ghost use Rattle.judge.specs.Verdict.{front_of};

use params::CARET;
use refusal::{Fault, Refusal};

// The bytes of the longest body.
const MOST: usize = 84;

// Whether a body is too long, or begins with anything but a caret.
pub fn front(body: &[u8]) -> Result<(), Fault>
    ensures { result ≡ front_of body.now }
{
    if MOST < body.len() {
        return Err(Refusal::LongBody.at(MOST));
    }
    if body.first() != Some(&CARET) {
        return Err(Refusal::NoCaret.at(0));
    }
    Ok(())
}
