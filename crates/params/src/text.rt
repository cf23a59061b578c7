// A text read to its end (L2, L4 to L6), or refused with N24 or N25. It is passed piece by piece: a plain byte, or a pair with the
// columns that follow `~G`. So a column where a piece begins follows neither `~G` nor a column.
ghost use Rattle.std.specs.Prelude.{◌≡◌, ◌+◌, ◌<◌, length, get_or, drop, position, not};
ghost use Rattle.params.specs.Bytes.{caret, param_of};
ghost use Rattle.params.specs.Kinds.{Column, kind_is, kind_of, kind_digit};
ghost use Rattle.params.specs.Text.{text_of};
ghost use Rattle.params.specs.Pieces.{wrong_here, run_length, piece_of};

use crate::Parameter;
use crate::bytes::{CARET, byte_at, is_letter};
use crate::kinds::{KIND_COLUMN, KIND_PLAIN, KIND_TILDE, kind_of};
use refusal::{Fault, Refusal};

// Where the first byte stands that is no column, if there is one. The end is compared and not asked of the table, which costs less.
fn first_other(rest: &[u8]) -> Option<usize>
    ensures { result ≡ position (λ x. not (kind_is Column x)) rest.now }
{
    rest.iter()
        .position(|x| *x == CARET || kind_of(*x) != KIND_COLUMN)
}

// The place after the columns that stand from a place on.
fn run_end(body: &[u8], from: usize) -> usize
    ensures { result ≡ from + run_length (drop from body.now) }
{
    let Some(rest) = body.get(from..) else {
        return from;
    };
    from + first_other(rest).unwrap_or(rest.len())
}

// What is wrong with the byte at a place, of this kind, where a piece begins. The byte after it counts for a tilde alone, and is read
// only there.
fn wrong(body: &[u8], at: usize, kind: u8) -> Option<Refusal>
    requires { (at < length body.now) × (kind ≡ kind_digit (kind_of (get_or body.now at caret))) }
    ensures { result ≡ wrong_here body.now at }
{
    match kind {
        KIND_PLAIN => None,
        KIND_TILDE if is_letter(byte_at(body, at + 1)) => None,
        KIND_TILDE => Some(Refusal::LoneTilde),
        _ => Some(Refusal::WrongByte),
    }
}

// The place after the piece at a place, whose first byte is of this kind.
fn piece_end(body: &[u8], at: usize, kind: u8) -> usize
    requires { (at < length body.now) × (kind ≡ kind_digit (kind_of (get_or body.now at caret))) }
    ensures { result ≡ at + piece_of body.now at }
{
    if kind != KIND_TILDE {
        return at + 1;
    }
    if byte_at(body, at + 1) == b'G' {
        return run_end(body, at + 2);
    }
    at + 2
}

// The text from a place on: the place after it, or its first byte at fault. The loop steps by the piece that was read, so there is
// no list to go over.
pub fn read_text(body: &[u8], from: usize) -> Result<Parameter, Fault>
    ensures { result ≡ text_of 0 0 from (param_of (drop from body.now)) }
{
    let mut at = from;
    loop {
        let x = byte_at(body, at);
        if x == CARET {
            return Ok(Parameter {
                next: at,
                number: 0,
            });
        }
        let kind = kind_of(x);
        if let Some(refusal) = wrong(body, at, kind) {
            return Err(refusal.at(at));
        }
        at = piece_end(body, at, kind);
    }
}
