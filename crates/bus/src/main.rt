#![tactic(auto)]

// A day on the bus. Each line of the file stdin says what happens to one sign (MID 80h, but for lines with `m`), and each line of the file
// stdout, written by hand from the rules (W8, W10, J3 to J16, R2, R4, R5, S1 to S13, S28 to S30), what it must answer.
//   lines  a line taken apart: `r` bytes received, in hexadecimal; `m` a MID that the sign is set to, and bytes received by it; `s` a step;
//          `z` a reset; `F` or `S` a reply with AUX so; `c` a copy of the running body; `p` power-on; `k` completed IDs put
//          into the record, how many and four bytes, sound or not; `t` place, length and text of the repeater
//   show   the answer in words
mod lines;
mod show;

fn main(rt: HostRuntime) {
    // No call of std fills a fixed buffer up to the end of the input, and a buffer that grows would need a heap.
    let mut buffer = [0u8; 16384];
    let got = io::read_full(0, &mut buffer);
    lines::all(&rt, &buffer[..got]);
}
