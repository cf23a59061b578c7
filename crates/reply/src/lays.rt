// Lays a reply: rules W10 and W13, with N19, N32 and N34.
ghost use Rattle.std.specs.Prelude.{◌∷◌};
ghost use Rattle.packet.specs.Mid.{mid_row};
ghost use Rattle.packet.specs.Wire.{reply_of};
ghost use Rattle.packet.specs.Write.{Writes};
ghost use Rattle.reply.specs.Reply.{reply_rows};

use crate::Status;
use crate::letters::{Letters, is_last, turned_mid};
use packet::{allowed, checksum};
use refusal::Refusal;

// Lays a reply that tells this; 32 for an ID that no sign completes, 34 for want of room. The MID is not judged here.
fn lay_reply(mid: u8, status: Status, out: &mut [u8]) -> Result<usize, Refusal>
    ensures { Writes (reply_rows mid status.last status.busy status.sink out.old) (reply_of mid status.last status.busy status.sink) out.old result out.new }
{
    if !is_last(status.last) {
        return Err(Refusal::WrongId);
    }
    if out.len() < 8 {
        return Err(Refusal::NoRoom);
    }
    let from = turned_mid(mid);
    let state = Letters::STATE.of(status.busy);
    let aux = Letters::AUX.of(status.sink);
    let front = [from, 0x7f, 8, status.last, state, aux];
    out[..6].copy_from_slice(&front);
    out[6] = 0;
    out[7] = checksum(&front);
    Ok(8)
}

// Lays a reply of the sign with this MID.
pub fn write_reply(mid: u8, status: Status, out: &mut [u8]) -> Result<usize, Refusal>
    ensures { Writes (mid_row mid ∷ reply_rows mid status.last status.busy status.sink out.old) (reply_of mid status.last status.busy status.sink) out.old result out.new }
{
    allowed(mid)?;
    lay_reply(mid, status, out)
}
