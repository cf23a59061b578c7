// The letters of each command and the form of its parameter: rules L9 to L24.
ghost use Rattle.std.specs.Prelude.{◌≡◌, [], ◌∷◌, Some};
ghost use Rattle.params.specs.Bytes.{caret};
ghost use Rattle.program.specs.Table.{number, known, table, row_at};

use crate::{Form, Kind, Row};
use params::Range;

// A number with its least and greatest value and its most digits.
fn number(least: u8, greatest: u8, digits: usize) -> Form
    ensures { result ≡ number least greatest digits }
{
    Form::Number(Range {
        least,
        greatest,
        digits,
    })
}

// A row of the table, by how many bytes the caret and the letters take.
fn known(letters: usize, kind: Kind, form: Form) -> Option<Row>
    ensures { result ≡ Some (known kind form letters) }
{
    Some(Row {
        kind,
        form,
        letters,
    })
}

// The row that the two bytes behind a caret name.
pub(crate) fn row(x: u8, y: u8) -> Option<Row>
    ensures { result ≡ row_at table (caret ∷ x ∷ y ∷ []) }
{
    match (x, y) {
        (b'I', b'I') => known(3, Kind::II, Form::Text),
        (b'I', b'A') => known(3, Kind::IA, Form::Text),
        (b'I', b'B') => known(3, Kind::IB, Form::Text),
        (b'S', _) => known(2, Kind::S, Form::Text),
        (b'L', _) => known(2, Kind::L, number(1, 99, 2)),
        (b'E', _) => known(2, Kind::E, Form::Bare),
        (b'F', _) => known(2, Kind::F, Form::Bare),
        (b'R', _) => known(2, Kind::R, Form::Bare),
        (b'X', b'S') => known(3, Kind::XS, Form::Bare),
        (b'X', b'F') => known(3, Kind::XF, Form::Bare),
        (b'P', _) => known(2, Kind::P, number(1, 20, 2)),
        (b'=', _) => known(2, Kind::Scans, number(1, 6, 1)),
        (b'W', _) => known(2, Kind::W, number(1, 99, 2)),
        (b'X', b'D') => known(3, Kind::XD, number(1, 255, 3)),
        (b'X', b'B') => known(3, Kind::XB, number(0, 255, 3)),
        (b'Y', _) => known(2, Kind::Y, number(0, 17, 2)),
        _ => None,
    }
}
