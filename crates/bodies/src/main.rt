#![tactic(auto)]

// Bodies, texts and places tried against the rules (section L, S15 to S17, R7, R8). Each line of the file stdin says
// what is tried, and each line of the file stdout, written by hand from the rules, what the library must answer.
//   lines      a line taken apart: `j` judge, `w` widths, `r` read a command, `s` where a place stands; a place of two digits;
//              then the bytes, one that can't be printed as two hexadecimal digits between < and >
//   show       the answer in words
mod lines;
mod show;

fn main(rt: HostRuntime) {
    // No call of std fills a fixed buffer up to the end of the input, and a buffer that grows would need a heap.
    let mut buffer = [0u8; 16384];
    let got = io::read_full(0, &mut buffer);
    lines::all(&rt, &buffer[..got]);
}
