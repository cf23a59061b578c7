// Bodies in a random order: most are programs, some are refused.
use arrayvec::ArrayVec;

// What a body is made of.
const PIECES: [&[u8]; 12] = [
    b"^SHI",
    b"^P20",
    b"^=3",
    b"^W7",
    b"^IAa~Bb",
    b"^L3",
    b"^E",
    b"^P1",
    b"^IIabcdefghijklmnopq",
    b"^XB200",
    b"^L12^S~Dx^=1^P9^E",
    b"^Y3",
];

// The next of a run of numbers that look random.
fn next(seed: u32) -> u32 {
    seed.wrapping_mul(1103).wrapping_add(12345)
}

// A body made from a number: twelve pieces behind each other, but for those that there is no room for.
pub(crate) fn body(seed: u32) -> ArrayVec<u8, 84> {
    let mut body = ArrayVec::new();
    let mut at = seed;
    for _ in 0..12 {
        at = next(at);
        let _ = body.try_extend_from_slice(PIECES[(at / 65536 % 12) as usize]);
    }
    body
}
