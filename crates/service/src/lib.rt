#![tactic(auto)]

// The sign's record over many calls: definitions and theorems, and no code.
//   specs/Delivery  the packets of a body received in order             demand 2; J9 to J12
//   specs/Driver    steps, and bytes off the line, in any order         the driver's wish; J4, J5, J10, J13, J14
//   specs/Punctual  a line that keeps to its forecast meanwhile, and its body in the room   demand 3; S11, S22, S32
//   specs/Good      a record that the code can hold, and that is sound  R1
//   proofs/..       those, that every call keeps a sound record sound, and that such a record depends only on what it holds
