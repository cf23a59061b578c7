// Bytes off the line, beside what a sign has collected, in the order of J3: 16, the reader's 19 and 1 to 11, then query
// (J13), reset (J14) and the joining of a normal packet (J4 to J10).
ghost use Rattle.std.specs.Prelude.{◌≡◌};
ghost use Rattle.collect.specs.Slots.{collection_of};
ghost use Rattle.hear.specs.Join.{left_of, reset_left};
ghost use Rattle.hear.specs.Hear.{hear_of};

use crate::frame::framed;
use crate::join::{join, stays};
use crate::{Heard, Outcome};
use collect::{Slots, begun};
use completed::{Completed, none};
use reader::{Packet, read_packet};
use refusal::Refusal;
use room::Room;

// A reset leaves nothing collected, and no completed ID.
fn cleared(room: &mut Room) -> Heard
    ensures { left_of result room.new ≡ reset_left }
{
    *room = [0; room::SIZE];
    Heard {
        outcome: Ok(Outcome::Reset),
        completed: none(),
        slots: begun(0, 0),
    }
}

// What the bytes are, and what they leave of completed IDs, slots and room; 16 where these are not sound beside a running body's length.
pub fn hear(
    completed: Completed,
    slots: Slots,
    len: usize,
    room: &mut Room,
    mid: u8,
    bytes: &[u8],
) -> Heard
    ensures { left_of result room.new ≡ hear_of completed (collection_of slots room.old) len mid bytes.now }
{
    if !framed(completed, slots, room, len) {
        return stays(completed, slots, Err(Refusal::Unsound));
    }
    let read = read_packet(mid, bytes);
    match read {
        Ok(Packet::Query) => stays(completed, slots, Ok(Outcome::Query)),
        Ok(Packet::Reset) => cleared(room),
        Ok(
            Packet::Normal {
                id,
                total,
                position,
                len: size,
            },
        ) => {
            let end = 5 + size;
            join(
                completed,
                slots,
                len,
                room,
                id,
                total,
                position as usize,
                &bytes[5..end],
            )
        }
        Err(e) => stays(completed, slots, Err(e)),
    }
}
