// The lines of the input, each taken apart and tried.
use crate::show::{judged, measured, read, stood};
use arrayvec::ArrayVec;
use input::{digit, line_end, pair};
use std::io;

// The bytes that a text writes, as many as are tried at most: two digits between < and > write one, any other byte itself. The script
// of the crate `bus` writes each byte as two digits, so it has a reading of its own.
fn decode(text: &[u8]) -> ArrayVec<u8, 128> {
    let mut written = text.iter().copied();
    let mut body = ArrayVec::new();
    while let Some(x) = written.next() {
        let byte = match x {
            b'<' => {
                let high = written.next().unwrap_or(0);
                let low = written.next().unwrap_or(0);
                written.next();
                pair(high, low)
            }
            _ => x,
        };
        if body.try_push(byte).is_err() {
            break;
        }
    }
    body
}

// One line.
fn line(rt: &impl Print, text: &[u8]) -> io::Result<()> {
    let [what, _, tens, ones, _, written @ ..] = text else {
        return Ok(());
    };
    let place = usize::from(digit(*tens)) * 10 + usize::from(digit(*ones));
    let body = decode(written);
    match what {
        b'j' => judged(rt, body.as_slice()),
        b'w' => measured(rt, body.as_slice()),
        b'r' => read(rt, body.as_slice(), place),
        _ => stood(rt, body.as_slice(), place),
    }
}

// All lines, each cut where `line_end` says, so that its contract holds of what this program reads. What can't be written of a line is
// left out, and the lines after it are tried.
pub(crate) fn all(rt: &impl Print, text: &[u8]) {
    let mut at: usize = 0;
    while at < text.len() {
        let end = line_end(text, at);
        let _ = line(rt, &text[at..end]);
        at = end + 1;
    }
}
