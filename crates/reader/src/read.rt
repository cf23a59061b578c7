// Reads a packet's bytes: rule W9, with N19 and N1 to N11.
ghost use Rattle.std.specs.Prelude.{◌≡◌, ◌<◌, ◌≤◌};
ghost use Rattle.reader.specs.Read.{fields_of, lowest_of, read_of};

use packet::{AROUND, PART, allowed, sum_of};
use refusal::Refusal;

// What a sign reads off the bytes that came.
#[derive(Clone, Copy, Debug, PartialEq, Eq)]
pub enum Packet {
    Query,
    Reset,
    // One packet of a transmission; its data stand at bytes 5 to 5 + len.
    Normal {
        id: u8,
        total: u8,
        position: u8,
        len: usize,
    },
}

// A query or a reset: no data, and 10h for its fifth byte.
fn read_special(id: u8, fifth: u8, len: usize) -> Result<Packet, Refusal>
    requires { (0x3F < id) × (7 ≤ len) }
    ensures { result ≡ fields_of id fifth len }
{
    if AROUND < len {
        return Err(Refusal::WrongSize);
    }
    if fifth != 0x10 {
        return Err(Refusal::WrongPlace);
    }
    match id {
        0x40 => Ok(Packet::Query),
        _ => Ok(Packet::Reset),
    }
}

// The fields behind the frame, once the frame is right: numbers 9 to 11.
fn read_fields(id: u8, fifth: u8, len: usize) -> Result<Packet, Refusal>
    requires { 7 ≤ len }
    ensures { result ≡ fields_of id fifth len }
{
    if 0x3f < id {
        return read_special(id, fifth, len);
    }
    if len == AROUND {
        return Err(Refusal::WrongSize);
    }
    let total = fifth / 16;
    let position = fifth % 16;
    // These stay tests of their own, and so do the two of a packet that is not full: one `||` and one `&&` made reading a packet
    // of 8 bytes cost 7 % more, which brought receiving the last packet past 1.25 of the reference.
    if 6 < total {
        return Err(Refusal::WrongPlace);
    }
    // A total of 0 is wrong here too: no position is below it.
    if total <= position {
        return Err(Refusal::WrongPlace);
    }
    let packet = Packet::Normal {
        id,
        total,
        position,
        len: len - AROUND,
    };
    if total <= position + 1 {
        return Ok(packet);
    }
    if len < PART + AROUND {
        return Err(Refusal::ShortPart);
    }
    Ok(packet)
}

// The packet's kind and fields, or the lowest number that applies, for a MID that is not judged here.
#[tactic(auto, using(basis::proofs::Tests::tests), unfolding(crate::specs::Read::lowest_of))]
fn lowest(mid: u8, bytes: &[u8]) -> Result<Packet, Refusal>
    ensures { result ≡ lowest_of mid bytes.now }
{
    let &[to, mark, count, id, fifth, .., end, _] = bytes else {
        return Err(Refusal::TooFewBytes);
    };
    let n = bytes.len();
    if PART + AROUND < n {
        return Err(Refusal::TooManyBytes);
    }
    if count as usize != n {
        return Err(Refusal::WrongCount);
    }
    if sum_of(bytes) != 0 {
        return Err(Refusal::WrongChecksum);
    }
    if to != mid {
        return Err(Refusal::OtherMid);
    }
    if mark != 0x7f {
        return Err(Refusal::WrongMark);
    }
    if end != 0 {
        return Err(Refusal::WrongEnd);
    }
    if 0x41 < id {
        return Err(Refusal::UnknownId);
    }
    read_fields(id, fifth, n)
}

// What bytes off the line are to the sign of this MID.
#[tactic(auto, unfolding(crate::specs::Read::read_of))]
pub fn read_packet(mid: u8, bytes: &[u8]) -> Result<Packet, Refusal>
    ensures { result ≡ read_of mid bytes.now }
{
    allowed(mid)?;
    lowest(mid, bytes)
}
