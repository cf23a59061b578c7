// A normal packet judged in the order of J3 and joined: Repeat of a completed ID (J4), 12 (J5), a new collection (J6), 13
// for another N (J7), a position already held (J8), Stored (J9), Released (J10).
ghost use Rattle.std.specs.Prelude.{◌≡◌, true, ◌++◌, ◌*◌, ◌≤◌, ◌<◌, length, take, drop};
ghost use Rattle.basis.specs.Bytes.{laid};
ghost use Rattle.collect.specs.Slots.{collection_of, same_of, slots_of, stored_of};
ghost use Rattle.collect.specs.Sound.{sound_of};
ghost use Rattle.hear.specs.Join.{left_of, stay_of, whole_of, count_of, goes_by, taking_of, join_by, Right, Open, Whole};

use crate::{Heard, Outcome};
use collect::{PART, Slots, begun, held, same};
use completed::Completed;
use judge::judge;
use refusal::Refusal;
use room::Room;

// Nothing changes.
pub(crate) fn stays(completed: Completed, slots: Slots, outcome: Result<Outcome, Refusal>) -> Heard
    ensures { result ≡ record { outcome = outcome; completed = completed; slots = slots } }
{
    Heard {
        outcome,
        completed,
        slots,
    }
}

// All packets are held: the body is released.
fn released(completed: Completed, slots: Slots, room: &Room) -> Heard
    requires { Whole (collection_of slots room.now) }
    ensures { left_of result room.now ≡ whole_of completed (collection_of slots room.now) }
{
    // A copy, here and where it is stored: fields lent where they stand, as in `collect`, `completed` and `image`, cost a receive
    // twenty instructions.
    let lens = slots.lens;
    let at = slots.total as usize - 1;
    let len = PART * at + lens[at] as usize;
    let verdict = judge(&room[..len]);
    Heard {
        outcome: Ok(Outcome::Released { verdict, len }),
        completed: completed.with(slots.id),
        slots: begun(0, 0),
    }
}

// Writes data to the front of a position's slot.
fn fill(room: &mut Room, position: usize, part: &[u8])
    requires { (position < 6) × (length part.now ≤ 14) }
    ensures { room.new ≡ laid (take (14 * position) room.old ++ part.now) room.old }
{
    let at = PART * position;
    let to = at + part.len();
    room[at..to].copy_from_slice(part);
}

// The data take their free position.
fn placed(
    completed: Completed,
    slots: Slots,
    room: &mut Room,
    position: usize,
    part: &[u8],
) -> Heard
    requires { Open (collection_of slots room.old) position (length part.now) }
    ensures { left_of result room.new ≡ count_of completed (stored_of (collection_of slots room.old) position part.now) }
{
    let mut next = slots;
    next.lens[position] = part.len() as u8;
    fill(room, position, part);
    let lens = next.lens;
    if held(lens) < next.total as usize {
        return stays(completed, next, Ok(Outcome::Stored));
    }
    released(completed, next, room)
}

// The slots that a packet of this ID goes into: new ones, where none is collected or another ID is, with zeros in the room.
fn taking(slots: Slots, room: &mut Room, id: u8, total: u8) -> Slots
    ensures { collection_of result room.new ≡ taking_of (collection_of slots room.old) id total }
{
    // Two tests, and not one with `&&` and one way to begin: with that the last packet of a body costs twenty instructions more.
    if slots.total == 0 {
        *room = [0; room::SIZE];
        return begun(id, total);
    }
    if slots.id != id {
        *room = [0; room::SIZE];
        return begun(id, total);
    }
    slots
}

// Whether a position's slot holds these data.
fn holds(room: &Room, position: usize, len: u8, part: &[u8]) -> bool
    requires { (position < 6) × (len ≤ 14) }
    ensures { result ≡ same_of (take len (drop (14 * position) room.now)) part.now }
{
    let from = PART * position;
    let to = from + len as usize;
    same(&room[from..to], part)
}

// A packet goes into these slots.
fn goes_into(
    completed: Completed,
    slots: Slots,
    room: &mut Room,
    total: u8,
    position: usize,
    part: &[u8],
) -> Heard
    requires { (slots_of slots.total 0 slots.lens room.old ≡ true) × Right total position (length part.now) }
    ensures { left_of result room.new ≡ goes_by (stay_of completed (collection_of slots room.old)) (count_of completed) (collection_of slots room.old) total position part.now }
{
    if slots.total != total {
        return stays(completed, slots, Err(Refusal::OtherPacket));
    }
    match slots.lens[position] {
        0 => placed(completed, slots, room, position, part),
        len if holds(room, position, len, part) => stays(completed, slots, Ok(Outcome::Repeat)),
        _ => stays(completed, slots, Err(Refusal::OtherPacket)),
    }
}

// A normal packet of a right length and place, beside completed IDs, and sound slots where no body is running.
pub(crate) fn join(
    completed: Completed,
    slots: Slots,
    len: usize,
    room: &mut Room,
    id: u8,
    total: u8,
    position: usize,
    part: &[u8],
) -> Heard
    requires { (len ≡ 0 → sound_of completed (collection_of slots room.old) ≡ true) × Right total position (length part.now) }
    ensures { left_of result room.new ≡ join_by (stay_of completed (collection_of slots room.old)) (count_of completed) completed (collection_of slots room.old) len id total position part.now }
{
    if completed.has(id) {
        return stays(completed, slots, Ok(Outcome::Repeat));
    }
    if len != 0 {
        return stays(completed, slots, Err(Refusal::Busy));
    }
    let into = taking(slots, room, id, total);
    goes_into(completed, into, room, total, position, part)
}
