// Data that are equal (J8), and slots that hold nothing yet (J6).
ghost use Rattle.std.specs.Prelude.{◌≡◌};
ghost use Rattle.collect.specs.Slots.{same_of, begun_of, slots_in};

use crate::{POSITIONS, Slots};

// Whether two lists of bytes are equal, in length and byte by byte: a public call of its own, with the law `one_collect_same`.
pub fn same(one: &[u8], other: &[u8]) -> bool
    ensures { result ≡ same_of one.now other.now }
{
    one == other
}

// Slots of this ID and total that hold nothing yet.
pub fn begun(id: u8, total: u8) -> Slots
    ensures { result ≡ slots_in (begun_of id total) }
{
    Slots {
        id,
        total,
        lens: [0; POSITIONS],
    }
}
