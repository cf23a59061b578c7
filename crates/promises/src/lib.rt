#![tactic(auto)]

// The promises, each as a statement over any message unit that a person who knows the rules can read, and their proofs;
// no code.
//   specs/Unit      all public calls of a unit, in the rules' numbers, and ours   P13
//   specs/Dispatch  from dispatch to Ready, in one statement            demands 2 and 3 and the driver's wish together
//   specs/Safe      no trip                                             demand 1; N0, N16, R1
//   specs/Guard     a forbidden MID is 19, and with any other every call answers as without the guard    demand 1; N19
//   specs/Before    the calls for C without the guard                   N19
//   specs/Wire      what is read, and what is written                   demand 2; W9, W12, W13, W15 to W19
//   specs/Delivery  a body written, delivered and released              demand 2; J9 to J12
//   specs/Late      late copies of the last four lines                  demand 2; J4, J5, J6, J10
//   specs/Record    joining, reset, step, reply, copy and the repeater  J2 to J16, S1, S12, S28 to S30
//   specs/Line      judging, the forecast and the line                  demand 3; L28, L29, S22 to S26, S32
//   specs/Keeps     all of them together, and what it is not to be told from ours
//   specs/Wrong     wrong units                                         P3, P4
//   specs/Bench     the examples that the rules mark, as one table      P5
//   proofs/..       the code is ours by its contracts (Contracts), ours keeps each promise, no other unit keeps all of
//                   them (Pins), the wrong units do not (Wrong), and each public call has one outcome (Outcome, Lent)
