// Writes one packet of a body, a query or a reset into a lent buffer: W1 to W6, W13 to W15, W17 and W18, with N19 and N31
// to N34. A refusal changes no byte, and bytes after the written ones stay.
ghost use Rattle.std.specs.Prelude.{◌≡◌, ◌+◌, ◌%◌, ◌≤◌, [], ◌∷◌, length, take};
ghost use Rattle.basis.specs.Bytes.{sum, laid};
ghost use Rattle.packet.specs.Mid.{mid_row};
ghost use Rattle.packet.specs.Wire.{sealed, packet_of, packet_at, query_of, reset_of};
ghost use Rattle.packet.specs.Write.{Writes, packet_rows, short_by, total_or};

use crate::mid::allowed;
use crate::sum::{negated, sum_of};
use refusal::Refusal;

// The data bytes of a full packet (W5).
pub const PART: usize = 14;

// The bytes of a packet around its data: five in front, two behind (W2).
pub const AROUND: usize = 7;

// The most bytes of a body: six full packets.
const LONGEST: usize = 84;

// Ends the first `at` bytes of the buffer with 00h and their checksum; their sum is told, so that they are not read again.
fn seal(total: u8, at: usize, out: &mut [u8])
    requires { (at + 2 ≤ length out.old) × (total ≡ sum (take at out.old) % 256) }
    ensures { out.new ≡ laid (sealed (take at out.old)) out.old }
{
    out[at] = 0;
    out[at + 1] = negated(total);
}

// Lays the data at the buffer's front and gives their 8-bit sum, in one walk over them.
fn write_data(part: &[u8], out: &mut [u8]) -> u8
    requires { length part.now ≤ length out.old }
    ensures out_after { out.new ≡ laid part.now out.old }
    ensures value { result ≡ sum part.now % 256 }
{
    let mut total: u8 = 0;
    // By places, as after `out.iter_mut().zip(part)` a proof knows the buffer's length alone, and none of its bytes.
    for (i, &x) in part.iter().enumerate() {
        out[i] = x;
        total = total.wrapping_add(x);
    }
    total
}

// Writes one packet of these bytes and data at the buffer's front.
fn write_fields(mid: u8, id: u8, fifth: u8, part: &[u8], out: &mut [u8])
    requires { (length part.now ≤ 14) × (length part.now + 7 ≤ length out.old) }
    ensures { out.new ≡ laid (packet_of mid id fifth part.now) out.old }
{
    let len = part.len();
    let count = (len + AROUND) as u8;
    let front = [mid, 0x7f, count, id, fifth];
    out[..5].copy_from_slice(&front);
    let ahead = sum_of(&front);
    let data = write_data(part, &mut out[5..]);
    seal(ahead.wrapping_add(data), len + 5, out);
}

// How many packets a body has, if it and its ID can be sent.
pub fn total(id: u8, body: &[u8]) -> Result<usize, Refusal>
    ensures { result ≡ total_or id body.now }
{
    let n = body.len();
    if n == 0 || LONGEST < n {
        return Err(Refusal::WrongBody);
    }
    if 0x3f < id {
        return Err(Refusal::WrongId);
    }
    // `div_ceil` costs more: a packet 164 instructions (162), past 1.25 of the reference, a transmission of 14 bytes 212 (203).
    Ok((n + PART - 1) / PART)
}

// The packet at one position of a body, for a MID that is not judged here.
fn write_at(mid: u8, id: u8, body: &[u8], position: u8, out: &mut [u8]) -> Result<usize, Refusal>
    ensures { Writes (packet_rows mid id body.now position out.old) (packet_at mid id body.now position) out.old result out.new }
{
    let total = total(id, body)?;
    let at = position as usize;
    if total <= at {
        return Err(Refusal::NoPosition);
    }
    let from = PART * at;
    let len = (body.len() - from).min(PART);
    let to = from + len;
    if out.len() < len + AROUND {
        return Err(Refusal::NoRoom);
    }
    let fifth = 16 * total as u8 + position;
    write_fields(mid, id, fifth, &body[from..to], out);
    Ok(len + AROUND)
}

// The packet at one position of a body.
pub fn write_packet(
    mid: u8,
    id: u8,
    body: &[u8],
    position: u8,
    out: &mut [u8],
) -> Result<usize, Refusal>
    ensures { Writes (mid_row mid ∷ packet_rows mid id body.now position out.old) (packet_at mid id body.now position) out.old result out.new }
{
    allowed(mid)?;
    write_at(mid, id, body, position, out)
}

// A packet without data: a query or a reset.
fn write_special(mid: u8, id: u8, out: &mut [u8]) -> Result<usize, Refusal>
    ensures { Writes (mid_row mid ∷ short_by (packet_of mid id 0x10 []) out.old ∷ []) (packet_of mid id 0x10 []) out.old result out.new }
{
    allowed(mid)?;
    if out.len() < AROUND {
        return Err(Refusal::NoRoom);
    }
    write_fields(mid, id, 0x10, b"", out);
    Ok(AROUND)
}

// The packet that asks the sign of this MID for its status. It and `write_reset` stay two calls, each a line over
// `write_special`, because the rules name two and C has a call for each.
pub fn write_query(mid: u8, out: &mut [u8]) -> Result<usize, Refusal>
    ensures { Writes (mid_row mid ∷ short_by (query_of mid) out.old ∷ []) (query_of mid) out.old result out.new }
{
    write_special(mid, 0x40, out)
}

// The packet that resets the sign of this MID.
pub fn write_reset(mid: u8, out: &mut [u8]) -> Result<usize, Refusal>
    ensures { Writes (mid_row mid ∷ short_by (reset_of mid) out.old ∷ []) (reset_of mid) out.old result out.new }
{
    write_special(mid, 0x41, out)
}
