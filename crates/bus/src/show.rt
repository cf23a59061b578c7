// One line for each thing done: the answer in words. What can't be written is left out, and what comes after it is tried.
use hear::Outcome;
use input::digit;
use judge::Ending;
use refusal::Refusal;
use repeater::repeat;
use sign::{Cleared, Received, Sign, Stepped};
use std::io;

// The first bytes of a buffer, if it has so many.
fn front(rt: &impl Print, bytes: &[u8], n: usize) -> io::Result<()> {
    rt.write_all(bytes.get(..n).unwrap_or(&[]))
}

// The outcome of a receive or a reset, and what a released body was judged.
fn outcome(rt: &impl Print, what: Result<Outcome, Refusal>) -> io::Result<()> {
    match what {
        Ok(Outcome::Query) => print!(rt; "query"),
        Ok(Outcome::Reset) => print!(rt; "reset"),
        Ok(Outcome::Repeat) => print!(rt; "repeat"),
        Ok(Outcome::Stored) => print!(rt; "stored"),
        Ok(Outcome::Released { verdict, .. }) => match verdict {
            Ok(Ending::Finite) => print!(rt; "released finite "),
            Ok(Ending::Endless) => print!(rt; "released endless "),
            Err(fault) => print!(rt; "released {fault} "),
        },
        Err(refusal) => print!(rt; "{refusal}"),
    }
}

// The outcome of a receive with the body that was released.
pub(crate) fn received(rt: &impl Print, got: Received) -> Sign {
    let _ = outcome(rt, got.outcome);
    if let Ok(Outcome::Released { len, .. }) = got.outcome {
        let _ = front(rt, &got.body, len);
    }
    let _ = println!(rt);
    got.sign
}

// The outcome of a reset.
pub(crate) fn cleared(rt: &impl Print, got: Cleared) -> Sign {
    let _ = outcome(rt, got.outcome);
    let _ = println!(rt);
    got.sign
}

// A step's answer.
pub(crate) fn stepped(rt: &impl Print, went: Stepped) -> Sign {
    let _ = match went.answer {
        Ok(Some(did)) => {
            let _ = print!(rt;
                "did number {} text {} len {}",
                did.number, did.text, did.len
            );
            println!(rt;
                " column {} scans {} ms {}",
                did.column, did.scans, did.millis
            )
        }
        Ok(None) => println!(rt; "idle"),
        Err(refusal) => println!(rt; "{refusal}"),
    };
    went.sign
}

// The reply, in hexadecimal.
pub(crate) fn replied(rt: &impl Print, sign: Sign, aux: bool) -> Sign {
    let mut out = [0u8; 8];
    let _ = match sign.reply(0x80, aux, &mut out) {
        Ok(_) => {
            for x in out {
                let _ = print!(rt; "{x:02x}");
            }
            println!(rt)
        }
        Err(refusal) => println!(rt; "{refusal}"),
    };
    sign
}

// The running body, copied into a buffer of 20 bytes.
pub(crate) fn copied(rt: &impl Print, sign: Sign) -> Sign {
    let mut out = [0u8; 20];
    let _ = match sign.copy_body(&mut out) {
        Ok(n) => {
            let _ = print!(rt; "copied {n} ");
            let _ = front(rt, &out, n);
            println!(rt)
        }
        Err(refusal) => println!(rt; "{refusal}"),
    };
    sign
}

// What the repeater hands back of the body that a line gives, behind a place and a length of one digit each.
pub(crate) fn repeated(rt: &impl Print, sign: Sign, text: &[u8]) -> Sign {
    if let [_, _, place, len, _, body @ ..] = text {
        let stretch = repeat(
            body,
            usize::from(digit(*place)),
            usize::from(digit(*len)),
            b"standing line",
        );
        let _ = rt.write_all(stretch);
        let _ = println!(rt);
    }
    sign
}
