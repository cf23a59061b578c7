// Where a place stands in a body: what R7 and R8 ask of a sound record's place and loop place.
ghost use Rattle.std.specs.Prelude.{◌≡◌};
ghost use Rattle.judge.specs.Standing.{stand_of, found_of};

use crate::begin::front;
use crate::walk::walk;
use crate::{Found, Standing};

// Which loop encloses a place, if it is at a command of an accepted body.
pub fn stand(body: &[u8], place: usize) -> Option<Standing>
    ensures { result ≡ stand_of body.now place }
{
    Some(find(body, place)?.standing)
}

// The same with the command that stands there, for a caller that performs the command.
pub fn find(body: &[u8], place: usize) -> Option<Found>
    ensures { result ≡ found_of body.now place }
{
    front(body).ok()?;
    walk(body, place).ok()?.found
}
