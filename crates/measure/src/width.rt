// A text measured: its two widths (S15), whether it fits (S16), and where a shown text starts (S17).
ghost use Rattle.std.specs.Prelude.{◌≡◌, ◌≤◌, take, drop};
ghost use Rattle.measure.specs.Width.{with_byte, widths_of, widest, counted_of, fits_of, column_of};
ghost use Rattle.measure.specs.Capped.{most, topped_of};

use crate::fonts::Font;
use params::TILDE;

// The columns of the sign.
pub const COLUMNS: usize = 96;

// Where counting a width stops.
const WIDEST: usize = 1000;

// The widths of a text in columns: all that it takes, and without the blank edge behind what it shows last.
#[derive(Clone, Copy)]
pub struct Widths {
    pub whole: usize,
    pub lit: usize,
}

// A text measured up to a place: the font in force, the byte before, the columns so far, and the blank edge so far.
#[derive(Clone, Copy)]
pub struct Measured {
    pub font: Font,
    pub last: u8,
    pub whole: usize,
    pub edge: usize,
}

impl Measured {
    // One byte more. The columns are counted to 1,003, so that the lit width of a text that is wider counts to 1,000 too.
    fn with(self, x: u8) -> Measured
        requires { (self.whole ≤ most) × (self.font.columns ≤ 9) }
        ensures { result ≡ topped_of (with_byte self x) }
    {
        let font = self.font;
        if self.last == TILDE {
            return Measured {
                font: font.switched(x),
                last: x,
                ..self
            };
        }
        if x == TILDE {
            return Measured { last: x, ..self };
        }
        let (columns, edge) = if 0x80 <= x {
            (1, 0)
        } else {
            (font.columns, font.blank)
        };
        Measured {
            font,
            last: x,
            whole: (self.whole + columns).min(WIDEST + 3),
            edge,
        }
    }
}

// The two widths of a text, each counted to 1,000, which no text of a body comes near.
pub fn measure(text: &[u8]) -> Widths
    ensures { result ≡ counted_of (widths_of text.now) }
{
    let mut got = Measured {
        font: Font::of(b'D'),
        last: 0,
        whole: 0,
        edge: 0,
    };
    for x in text {
        got = got.with(*x);
    }
    Widths {
        whole: got.whole.min(WIDEST),
        lit: (got.whole - got.edge).min(WIDEST),
    }
}

// The widths of the text of so many bytes that stands at a place of a body, as far as the body reaches.
pub fn measure_at(body: &[u8], place: usize, len: usize) -> Widths
    ensures { result ≡ counted_of (widths_of (take len (drop place body.now))) }
{
    match body.get(place..) {
        Some(rest) => measure(&rest[..len.min(rest.len())]),
        None => Widths { whole: 0, lit: 0 },
    }
}

// Whether a text of these widths fits the sign: it goes by the lit width.
pub fn fits(widths: Widths) -> bool
    ensures { result ≡ fits_of widths }
{
    widths.lit <= COLUMNS
}

// The column at which a shown text of these widths starts: it goes by the lit width; 0 where it doesn't fit.
pub fn start_column(widths: Widths) -> usize
    ensures { result ≡ column_of widths }
{
    COLUMNS.saturating_sub(widths.lit) / 2
}
