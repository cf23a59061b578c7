// A body sent to a new sign, and its first step, for the rules' examples of columns and scans (S16 to S20).
use sign::Sign;
use std::io;

// The packet of a body at a position, written and received; the sign as it was where there is no such packet.
fn carried(sign: Sign, body: &[u8], position: u8) -> Sign {
    let mut out = [0u8; 21];
    match packet::write_packet(0x80, 5, body, position, &mut out) {
        Ok(n) => sign.receive(0x80, &out[..n]).sign,
        Err(_) => sign,
    }
}

// All packets of a body, to a new sign.
fn sent(body: &[u8]) -> Sign {
    (0..6).fold(Sign::power_on(), |sign, position| {
        carried(sign, body, position)
    })
}

// The first step's start column, scans and milliseconds.
pub(crate) fn first(rt: &impl Print, body: &str) -> io::Result<()> {
    match sent(body.as_bytes()).step().answer {
        Ok(Some(did)) => {
            println!(rt;
                "{body}: column {} scans {} ms {}",
                did.column, did.scans, did.millis
            )
        }
        Ok(None) => println!(rt; "{body}: idle"),
        Err(refusal) => println!(rt; "{body}: {refusal}"),
    }
}
