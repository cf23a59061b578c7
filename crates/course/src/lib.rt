#![tactic(auto)]

// The course of a running program: definitions and the theorem of demand 3, and no code.
//   specs/Steps     a state and what one step makes of it: places, open loops, counts           S1, S6 to S13
//   specs/Tree      the same program unrolled: a loop as `L`, then n times its commands and `E`   S22, S23, L28
//   specs/Price     the sums over an unrolled program, a loop's commands read at most twice     S21, S23, S27
//   proofs/..       the three agree: what is stepped is what is unrolled, and what it costs is its price
