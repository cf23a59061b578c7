// The one reader of numbers: rules L2 and L8, and N23. It reads by additions alone, and adds in 32 bits, so that a chip
// without a multiply needs no routine for it (P14).
ghost use Rattle.std.specs.Prelude.{◌≡◌, drop};
ghost use Rattle.params.specs.Bytes.{param_of};
ghost use Rattle.params.specs.Number.{number_of};

use crate::bytes::{CARET, byte_at};
use crate::{Parameter, Range};
use refusal::{Fault, Refusal};

// The number from a place on, within this range and of one digit at least; 23 at the command's place where it is not.
// It ends at the first byte that is no digit and keeps a value on the way, while a fold would go on to the end of the body.
pub fn read_number(body: &[u8], place: usize, from: usize, range: Range) -> Result<Parameter, Fault>
    ensures { result ≡ number_of range.least range.greatest range.digits place from (param_of (drop from body.now)) }
{
    let wrong = Refusal::WrongNumber.at(place);
    let mut at = from;
    let mut value: usize = 0;
    loop {
        match byte_at(body, at) {
            CARET => {
                if at == from || value < range.least as usize {
                    return Err(wrong);
                }
                return Ok(Parameter {
                    next: at,
                    number: value,
                });
            }
            x @ b'0'..=b'9' => {
                if range.digits <= at - from {
                    return Err(wrong);
                }
                let digit = (x - b'0') as u32;
                let once = value as u32;
                let twice = once + once;
                let fourfold = twice + twice;
                let eightfold = fourfold + fourfold;
                value = (eightfold + twice + digit) as usize;
                if (range.greatest as usize) < value {
                    return Err(wrong);
                }
                at += 1;
            }
            _ => return Err(wrong),
        }
    }
}
