// What a sign is set to (R3), and how `P`, `=`, `XS`, `XF`, `XD` and `XB` change it (S13, L17, L18, L20 to L23).
ghost use Rattle.std.specs.Prelude.{◌≡◌};
ghost use Rattle.perform.specs.Settings.{sound_of, behind_of, forced_of};

use program::Kind;

// Pace, scans per shift, AUX drive (1: sink, 0: float), dim threshold, forced brightness (0: not forced).
// `sink` is no `bool` and `bright` no `Option`: a record is bytes, and `sound_of` and `image_again` (image) speak of records with any byte
// in either.
#[derive(Clone, Copy)]
pub struct Settings {
    pub pace: u8,
    pub scans: u8,
    pub sink: u8,
    pub dim: u8,
    pub bright: u8,
}

// The brightness that a number forces: above 31 acts as 31, 0 and 1 end forcing.
fn forced(number: u8) -> u8
    ensures { result ≡ forced_of number }
{
    match number {
        0 | 1 => 0,
        2..=31 => number,
        _ => 31,
    }
}

impl Settings {
    // Whether each setting is in its range.
    pub fn sound(self) -> bool
        ensures { result ≡ sound_of self }
    {
        (1..=20).contains(&self.pace)
            && (1..=6).contains(&self.scans)
            && self.sink <= 1
            && 1 <= self.dim
            && (self.bright == 0 || (2..=31).contains(&self.bright))
    }

    // The settings behind a command of this kind and number.
    pub fn behind(self, kind: Kind, number: u8) -> Settings
        ensures { result ≡ behind_of kind number self }
    {
        match kind {
            Kind::P => Settings {
                pace: number,
                ..self
            },
            Kind::Scans => Settings {
                scans: number,
                ..self
            },
            Kind::XS => Settings { sink: 1, ..self },
            Kind::XF => Settings { sink: 0, ..self },
            Kind::XD => Settings {
                dim: number,
                ..self
            },
            Kind::XB => Settings {
                bright: forced(number),
                ..self
            },
            _ => self,
        }
    }
}
