// The lines of the input, each taken apart and done to the sign.
use crate::show::{cleared, copied, received, repeated, replied, stepped};
use arrayvec::ArrayVec;
use completed::Completed;
use input::{line_end, pair};
use sign::Sign;

// The bytes that a line writes behind its first two, as many as there is room for. The script of the crate `bodies` writes most bytes
// as themselves, so it has a reading of its own.
fn decode<const N: usize>(text: &[u8]) -> ArrayVec<u8, N> {
    let mut bytes = ArrayVec::new();
    for digits in text.chunks_exact(2).skip(1).take(N) {
        let _ = bytes.try_push(pair(digits[0], digits[1]));
    }
    bytes
}

// The sign with the completed IDs that a line writes: how many, and the four bytes, sound or not.
fn known(sign: Sign, text: &[u8]) -> Sign {
    let bytes = decode::<5>(text);
    let byte = |at: usize| bytes.as_slice().get(at).copied().unwrap_or(0);
    let completed = Completed {
        count: byte(0),
        ids: [byte(1), byte(2), byte(3), byte(4)],
    };
    Sign { completed, ..sign }
}

// One thing done to the sign.
fn done(rt: &impl Print, sign: Sign, text: &[u8]) -> Sign {
    let Some(what) = text.first() else {
        return sign;
    };
    match what {
        b'r' => received(rt, sign.receive(0x80, decode::<32>(text).as_slice())),
        b'm' => match decode::<32>(text).as_slice() {
            [mid, packet @ ..] => received(rt, sign.receive(*mid, packet)),
            [] => sign,
        },
        b's' => stepped(rt, sign.step()),
        b'z' => cleared(rt, sign.reset()),
        b'c' => copied(rt, sign),
        b'F' => replied(rt, sign, false),
        b'S' => replied(rt, sign, true),
        b't' => repeated(rt, sign, text),
        b'k' => known(sign, text),
        _ => Sign::power_on(),
    }
}

// All lines, from power-on, each cut where `line_end` says, so that its contract holds of what this program reads.
pub(crate) fn all(rt: &impl Print, text: &[u8]) {
    let mut sign = Sign::power_on();
    let mut at: usize = 0;
    while at < text.len() {
        let end = line_end(text, at);
        sign = done(rt, sign, &text[at..end]);
        at = end + 1;
    }
}
