// The table of byte kinds (L4, P15): 256 entries, a digit for each byte, and how the text reader asks it.
ghost use Rattle.std.specs.Prelude.{◌≡◌, ◌<◌, get_or};
ghost use Rattle.params.specs.Kinds.{kind_of, kind_digit};
ghost use Rattle.params.specs.KindTable.{kind_rows};

// The digit of each kind in the table, with a name, as P15 asks. No code asks for control or caret: they are named for a reader of the
// rows. They are no enum, which would need a second `match`, from the digit that comes out of the table to a kind, and be no plainer.
pub(crate) const KIND_PLAIN: u8 = 0;

pub(crate) const KIND_CONTROL: u8 = 1;

pub(crate) const KIND_CARET: u8 = 2;

pub(crate) const KIND_TILDE: u8 = 3;

pub(crate) const KIND_COLUMN: u8 = 4;

// A row of the table: the kinds of eight bytes, the first in the last digit. The rows are arms and not an array, because an array is
// laid out on the stack at each use, while the compiler makes one constant of the arms.
fn row(n: u8) -> u32
    requires { n < 32 }
    ensures { result ≡ get_or kind_rows n 0 }
{
    match n {
        0 => 0x11111111, // 00h to 07h
        1 => 0x11111111, // 08h to 0Fh
        2 => 0x11111111, // 10h to 17h
        3 => 0x11111111, // 18h to 1Fh
        4 => 0x00000000, // 20h to 27h
        5 => 0x00000000, // 28h to 2Fh
        6 => 0x00000000, // 30h to 37h
        7 => 0x00000000, // 38h to 3Fh
        8 => 0x00000000, // 40h to 47h
        9 => 0x00000000, // 48h to 4Fh
        10 => 0x00000000, // 50h to 57h
        11 => 0x02000000, // 58h to 5Fh
        12 => 0x00000000, // 60h to 67h
        13 => 0x00000000, // 68h to 6Fh
        14 => 0x00000000, // 70h to 77h
        15 => 0x13000000, // 78h to 7Fh
        16 => 0x44444444, // 80h to 87h
        17 => 0x44444444, // 88h to 8Fh
        18 => 0x44444444, // 90h to 97h
        19 => 0x44444444, // 98h to 9Fh
        20 => 0x44444444, // A0h to A7h
        21 => 0x44444444, // A8h to AFh
        22 => 0x44444444, // B0h to B7h
        23 => 0x44444444, // B8h to BFh
        24 => 0x44444444, // C0h to C7h
        25 => 0x44444444, // C8h to CFh
        26 => 0x44444444, // D0h to D7h
        27 => 0x44444444, // D8h to DFh
        28 => 0x44444444, // E0h to E7h
        29 => 0x44444444, // E8h to EFh
        30 => 0x44444444, // F0h to F7h
        _ => 0x44444444, // F8h to FFh
    }
}

// The kind of a byte, asked of the table.
pub(crate) fn kind_of(x: u8) -> u8
    ensures { result ≡ kind_digit (kind_of x) }
{
    let entries = row(x / 8);
    let place = x % 8 * 4;
    ((entries >> place) % 16) as u8
}
