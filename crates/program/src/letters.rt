// A command's letters in print: rules L9 to L24.
ghost use Rattle.std.specs.Prelude.{Some};
ghost use Rattle.program.specs.Answers.{letters_of};

use crate::Kind;
use std::fmt;

impl fmt::Display for Kind {
    ghost output = { λ kind. Some (letters_of kind) };

    fn fmt<W: fmt::Write>(&self, f: &mut fmt::Formatter<W>) -> fmt::Result {
        f.write_str(match self {
            Kind::II => "II",
            Kind::IA => "IA",
            Kind::IB => "IB",
            Kind::S => "S",
            Kind::L => "L",
            Kind::E => "E",
            Kind::F => "F",
            Kind::R => "R",
            Kind::XS => "XS",
            Kind::XF => "XF",
            Kind::P => "P",
            Kind::Scans => "=",
            Kind::W => "W",
            Kind::XD => "XD",
            Kind::XB => "XB",
            Kind::Y => "Y",
        })
    }
}
