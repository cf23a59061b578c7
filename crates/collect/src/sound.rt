// Which collections are sound: rules R4 and R5.
ghost use Rattle.std.specs.Prelude.{◌≡◌, length, drop};
ghost use Rattle.room.specs.Room.{zeros_of};
ghost use Rattle.collect.specs.Slots.{rule_of, one_of, held_of, slots_of, collection_of};
ghost use Rattle.collect.specs.Sound.{nothing_of, sound_of};

use crate::{Lengths, PART, POSITIONS, Slots};
use completed::Completed;
use room::{Room, clean};

// The length of a full packet.
const FULL: u8 = PART as u8;

// Whether a packet of this length may be held at a position; 0 is none.
fn rule(total: u8, position: usize, len: u8) -> bool
    ensures { result ≡ rule_of total position len }
{
    let count = total as usize;
    if count <= position {
        len == 0
    } else if count - position == 1 {
        len <= FULL
    } else {
        matches!(len, 0 | FULL)
    }
}

// How many positions are held.
pub fn held(lens: Lengths) -> usize
    ensures { result ≡ held_of lens }
{
    // Counted by hand: `filter().count()` costs a packet in the middle an eighth more, since that loop is not unrolled (docs/PROVING.md).
    let mut n = 0;
    for len in &lens {
        if *len != 0 {
            n += 1;
        }
    }
    n
}

// Whether a slot holds zeros behind its data; a full one is not looked at.
fn unused(slot: &[u8], len: u8) -> bool
    requires { length slot.now ≡ 14 }
    ensures { result ≡ zeros_of (drop len slot.now) }
{
    len == FULL || clean(slot, len as usize)
}

// Whether each slot obeys the packet rules, with zeros after its data.
fn ruled(total: u8, lens: Lengths, room: &Room) -> bool
    ensures { result ≡ slots_of total 0 lens room.now }
{
    // By position: `all` over `zip(room.chunks_exact(PART)).enumerate()` has "not proved that what `unused` requires holds at this call".
    for i in 0..POSITIONS {
        let len = lens[i];
        let from = PART * i;
        let to = from + PART;
        if !(rule(total, i, len) && unused(&room[from..to], len)) {
            return false;
        }
    }
    true
}

// Whether each slot obeys the packet rules where nothing is collected: no lengths, and zeros all over the room.
fn blank(lens: Lengths, room: &Room) -> bool
    ensures { result ≡ slots_of 0 0 lens room.now }
{
    clean(&lens, 0) && clean(room, 0)
}

impl Slots {
    // Whether nothing is collected: no ID, no total and no lengths.
    pub fn none(self) -> bool
        ensures { result ≡ nothing_of self }
    {
        // A copy: fields lent where they stand, as in `completed`, `hear` and `image`, cost a receive twenty instructions.
        let lens = self.lens;
        self.id == 0 && self.total == 0 && clean(&lens, 0)
    }

    // Whether the slots are sound with this room, beside these completed IDs.
    pub fn sound(self, completed: Completed, room: &Room) -> bool
        ensures { result ≡ sound_of completed (collection_of self room.now) }
    {
        // Copies, since fields lent where they stand cost a receive twenty instructions, as in `none`.
        let id = self.id;
        let total = self.total;
        let lens = self.lens;
        if total == 0 {
            return id == 0 && blank(lens, room);
        }
        id <= 0x3f
            && !completed.has(id)
            && total <= 6
            && (1..total as usize).contains(&held(lens))
            && ruled(total, lens, room)
    }
}
