#![tactic(auto)]

// A record's room, and whether unused room holds zeros, of a body, of the packets collected and of the completed IDs: rule R5.
ghost use Rattle.std.specs.Prelude.{◌≡◌, drop};
ghost use Rattle.room.specs.Room.{zeros_of};

// The bytes of a room. No crate with code lies under this one, `packet` and `judge`, so each names the rules' 84 (`LONGEST` and `MOST` there).
pub const SIZE: usize = 84;

// A record's room: it holds the data of the packets collected, or the running body.
pub type Room = [u8; SIZE];

// Whether all bytes are 0: every byte is looked at, so that the compiler can take many at once.
fn zeros(bytes: &[u8]) -> bool
    ensures { result ≡ zeros_of bytes.now }
{
    bytes.iter().fold(0, |all: u8, x| all.max(*x)) == 0
}

// Whether all bytes behind the first `len` are 0. A `len` of 0 has a test of its own: where the bytes are an array, the compiler knows their number.
pub fn clean(bytes: &[u8], len: usize) -> bool
    ensures { result ≡ zeros_of (drop len bytes.now) }
{
    if len == 0 {
        return zeros(bytes);
    }
    match bytes.get(len..) {
        Some(rest) => zeros(rest),
        None => true,
    }
}
