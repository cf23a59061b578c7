// Packets and replies for C, read (W9, W12) and written (W13 to W18), with N19 and N252.
ghost use Rattle.std.specs.Prelude.{◌≡◌, not, [], ◌∷◌, eqb};
ghost use Rattle.packet.specs.Mid.{mid_row};
ghost use Rattle.packet.specs.Wire.{query_of, reset_of, packet_at, transmission_of, reply_of};
ghost use Rattle.packet.specs.Write.{short_by, packet_rows, transmission_rows};
ghost use Rattle.reply.specs.Reply.{reply_rows};
ghost use Rattle.cabi.specs.Calls.{Tells, read_no, read_answer, reply_no, reply_answer};

use crate::loaded::short_for;
use packet::{write_packet, write_query, write_reset};
use reader::read_packet;
use reply::{Status, read_reply, write_reply};
use transmission::write_transmission;
use words::{tell_reading, tell_status, tell_written};

// What bytes off the line are, to the sign of this MID.
#[unsafe(no_mangle)]
pub extern "C" fn yd_read_packet(mid: u8, bytes: &[u8], answer: &mut [u8]) -> u32
    ensures result { result ≡ read_no mid bytes.now answer.old }
    ensures told { answer.new ≡ read_answer mid bytes.now answer.old }
{
    if answer.len() < 20 {
        return short_for(mid);
    }
    tell_reading(read_packet(mid, bytes), answer)
}

// What a reply of the sign of this MID tells.
#[unsafe(no_mangle)]
pub extern "C" fn yd_read_reply(mid: u8, bytes: &[u8], answer: &mut [u8]) -> u32
    ensures result { result ≡ reply_no mid bytes.now answer.old }
    ensures told { answer.new ≡ reply_answer mid bytes.now answer.old }
{
    if answer.len() < 12 {
        return short_for(mid);
    }
    tell_status(read_reply(mid, bytes), answer)
}

// Lays a query.
#[unsafe(no_mangle)]
pub extern "C" fn yd_write_query(mid: u8, out: &mut [u8]) -> u32
    ensures { Tells (mid_row mid ∷ short_by (query_of mid) out.old ∷ []) (query_of mid) out.old result out.new }
{
    tell_written(write_query(mid, out))
}

// Lays a reset.
#[unsafe(no_mangle)]
pub extern "C" fn yd_write_reset(mid: u8, out: &mut [u8]) -> u32
    ensures { Tells (mid_row mid ∷ short_by (reset_of mid) out.old ∷ []) (reset_of mid) out.old result out.new }
{
    tell_written(write_reset(mid, out))
}

// Lays the packet at one position of a body.
#[unsafe(no_mangle)]
pub extern "C" fn yd_write_packet(mid: u8, id: u8, body: &[u8], position: u8, out: &mut [u8]) -> u32
    ensures { Tells (mid_row mid ∷ packet_rows mid id body.now position out.old) (packet_at mid id body.now position) out.old result out.new }
{
    tell_written(write_packet(mid, id, body, position, out))
}

// Lays all packets of a body, back to back.
#[unsafe(no_mangle)]
pub extern "C" fn yd_write_transmission(mid: u8, id: u8, body: &[u8], out: &mut [u8]) -> u32
    ensures { Tells (mid_row mid ∷ transmission_rows mid id body.now out.old) (transmission_of mid id body.now) out.old result out.new }
{
    tell_written(write_transmission(mid, id, body, out))
}

// Lays a reply; what isn't 0 is Busy, and what isn't 0 is sink.
#[unsafe(no_mangle)]
pub extern "C" fn yd_write_reply(mid: u8, last: u8, busy: u8, sink: u8, out: &mut [u8]) -> u32
    ensures { Tells (mid_row mid ∷ reply_rows mid last (not (eqb busy 0)) (not (eqb sink 0)) out.old) (reply_of mid last (not (eqb busy 0)) (not (eqb sink 0))) out.old result out.new }
{
    let status = Status {
        last,
        busy: busy != 0,
        sink: sink != 0,
    };
    tell_written(write_reply(mid, status, out))
}
