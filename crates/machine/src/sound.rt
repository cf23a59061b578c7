// Which runs are sound: rules R3 and R5 to R8.
ghost use Rattle.std.specs.Prelude.{◌≡◌, Some};
ghost use Rattle.machine.specs.Sound.{rests_of, held_of, filled_of, sound_of};

use crate::{Loop, Run};
use judge::{Standing, stand};
use room::clean;

// Whether places and count are 0, as in a Ready run.
pub(crate) fn rests(place: usize, inner: Loop) -> bool
    ensures { result ≡ rests_of place inner }
{
    place == 0 && inner == Loop::none()
}

// Whether the open loop is the one that the place stands in.
pub(crate) fn held(standing: Standing, inner: Loop) -> bool
    ensures { result ≡ held_of (Some standing) inner }
{
    match standing {
        Standing::Outside => inner == Loop::none(),
        Standing::Inside(behind, number) => {
            inner.place == behind && (1..=number).contains(&(inner.left as usize))
        }
    }
}

// Whether the room holds the body, and zeros after it.
pub(crate) fn filled(room: &[u8], len: usize) -> bool
    ensures { result ≡ filled_of room.now len }
{
    len <= room.len() && clean(room, len)
}

impl Run {
    // Whether the run is sound, with its body at the front of this room.
    pub fn sound(self, room: &[u8]) -> bool
        ensures { result ≡ sound_of room.now self }
    {
        if !self.settings.sound() {
            return false;
        }
        if self.len == 0 {
            return rests(self.place, self.inner);
        }
        if !filled(room, self.len) {
            return false;
        }
        let Some(standing) = stand(&room[..self.len], self.place) else {
            return false;
        };
        held(standing, self.inner)
    }
}
