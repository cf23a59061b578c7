// The fonts of a text (S15).
ghost use Rattle.std.specs.Prelude.{◌≡◌};
ghost use Rattle.measure.specs.Width.{font_of, switched_of};

// The columns of a font's characters, and how many of them are blank, on the right.
#[derive(Clone, Copy)]
pub struct Font {
    pub columns: usize,
    pub blank: usize,
}

impl Font {
    // The font that a letter behind a tilde switches to.
    pub(crate) fn of(letter: u8) -> Font
        ensures { result ≡ font_of letter }
    {
        let (columns, blank) = match letter {
            b'D' => (6, 1),
            b'd' => (7, 2),
            b'B' => (8, 2),
            b'b' => (9, 3),
            b'C' => (5, 1),
            _ => (6, 2),
        };
        Font { columns, blank }
    }

    // The font behind a tilde and a letter: that of the letter; `G` leaves the font.
    pub(crate) fn switched(self, letter: u8) -> Font
        ensures { result ≡ switched_of self letter }
    {
        if letter == b'G' {
            self
        } else {
            Font::of(letter)
        }
    }
}
