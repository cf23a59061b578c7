// Which completed IDs are sound: none to four, each 3Fh at most and none twice (R2), and zeros in the room of the others (R5).
ghost use Rattle.std.specs.Prelude.{◌≡◌, take, ◌≤◌};
ghost use Rattle.completed.specs.Completed.{differ_of, sound_of};

use crate::Completed;
use crate::known::among;
use room::clean;

// Whether the first so many are IDs of packets with data, and none of them stands twice.
fn differ(ids: [u8; 4], count: usize) -> bool
    requires { count ≤ 4 }
    ensures { result ≡ differ_of (take count ids) }
{
    // By place: over `enumerate().all(..)` it is "not proved that what the function ensures holds when it returns".
    for i in 0..count {
        let id = ids[i];
        let from = i + 1;
        if 0x3f < id || among(&ids[from..count], id) {
            return false;
        }
    }
    true
}

impl Completed {
    // Whether this part of a record is sound.
    pub fn sound(self) -> bool
        ensures { result ≡ sound_of self }
    {
        // A copy, as in `has`.
        let ids = self.ids;
        let count = self.count as usize;
        count <= 4 && differ(ids, count) && clean(&ids, count)
    }
}
