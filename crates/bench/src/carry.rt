// How many packets a body takes: rules W14 and N31.
use reader::Packet;
use std::io;

// How many packets a transmission's first packet says there are; it is full where there are more.
fn said(out: &[u8; 126]) -> u8 {
    match reader::read_packet(0x80, &out[..21]) {
        Ok(Packet::Normal { total, .. }) => total,
        Ok(Packet::Query | Packet::Reset) | Err(_) => 0,
    }
}

// A body of 14 bytes or more, written as a transmission.
pub(crate) fn packets(rt: &impl Print, body: &[u8]) -> io::Result<()> {
    let mut out = [0u8; 126];
    let len = body.len();
    match transmission::write_transmission(0x80, 5, body, &mut out) {
        Ok(_) => println!(rt; "a body of {len}: packets {}", said(&out)),
        Err(refusal) => println!(rt; "a body of {len}: {refusal}"),
    }
}
