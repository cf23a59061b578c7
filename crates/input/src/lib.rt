#![tactic(auto)]

// What the programs that read a script share: bytes written as two digits, and where a line ends. No call has a `requires`.
//   digits   a hexadecimal digit's value, and the byte that two of them write
//   lines    the next line end
mod digits;
mod lines;

pub use digits::{digit, pair};
pub use lines::line_end;
