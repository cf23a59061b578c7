// Which completed IDs, slots and room are sound: no collection when Busy (R7). The crate `completed` decides on the
// IDs (R2), `collect` on the packets collected (R4, R5), and the room of a Busy sign is the running program's.
ghost use Rattle.std.specs.Prelude.{◌≡◌};
ghost use Rattle.collect.specs.Slots.{collection_of};
ghost use Rattle.hear.specs.Frame.{framed_by};

use collect::Slots;
use completed::Completed;
use room::Room;

// Whether completed IDs, slots and room are sound beside a running body of this length, 0 when Ready.
pub fn framed(completed: Completed, slots: Slots, room: &Room, len: usize) -> bool
    ensures { result ≡ framed_by completed (collection_of slots room.now) len }
{
    // Tests in a row, and not one with `&&`: with that the last packet of a body costs an instruction more, and misses its goal of speed.
    if !completed.sound() {
        return false;
    }
    if len == 0 {
        return slots.sound(completed, room);
    }
    slots.none()
}
