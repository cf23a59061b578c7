// Writes all packets of a body into a lent buffer: W13, W14 and W16 to W18 with N19, N31, N32 and N34, in the form of
// P9. A refusal changes no byte, and bytes after the written ones stay.
ghost use Rattle.std.specs.Prelude.{◌∷◌};
ghost use Rattle.packet.specs.Mid.{Allowed, mid_row};
ghost use Rattle.packet.specs.Wire.{transmission_of};
ghost use Rattle.packet.specs.Write.{Writes, transmission_rows};

use packet::{AROUND, PART, allowed, total, write_packet};
use refusal::Refusal;

// All packets of a body, each laid into the buffer behind the one before, for a MID that is not forbidden.
fn write_all(mid: u8, id: u8, body: &[u8], out: &mut [u8]) -> Result<usize, Refusal>
    requires { Allowed mid }
    ensures { Writes (transmission_rows mid id body.now out.old) (transmission_of mid id body.now) out.old result out.new }
{
    let total = total(id, body)?;
    let size = AROUND * total + body.len();
    if out.len() < size {
        return Err(Refusal::NoRoom);
    }
    for position in 0..total {
        let at = (PART + AROUND) * position;
        write_packet(mid, id, body, position as u8, &mut out[at..])?;
    }
    Ok(size)
}

// All packets of a body, back to back.
pub fn write_transmission(mid: u8, id: u8, body: &[u8], out: &mut [u8]) -> Result<usize, Refusal>
    ensures { Writes (mid_row mid ∷ transmission_rows mid id body.now out.old) (transmission_of mid id body.now) out.old result out.new }
{
    allowed(mid)?;
    write_all(mid, id, body, out)
}
