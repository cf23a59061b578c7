#![tactic(auto)]

// Definitions and laws that every other crate cites; no code.
//   specs/Choice    a choice by a Bool, `and`, `or`, a range, for lists of decisions in order      N0, J3
//   specs/Rows      a table of refusals, of which the first that applies is given                  N0
//   specs/Bytes     sums of bytes, and what is laid into a buffer                                  W7, W13
//   specs/Told      one form for every answer, in the rules' numbers                               P13
//   proofs/Tests    the ruleset that turns the tests of a chain of returns into the definition's
//   proofs/Choices  a choice whose test is known; conjunctions and ranges taken apart and made
//   proofs/Rows     the refusal that is given applies, and it is the lowest
//   proofs/Lists    what is left of a list from a place on, an element within a list
//   proofs/Bytes    bytes at the front and the end of a list
//   proofs/Sums     the sum of bytes, piece by piece
//   proofs/Laid     what was laid stands there, and what lay behind stays
