#![tactic(auto)]

// What a program is, apart from how it is judged: definitions and the laws that `judge` keeps to them, and no code.
//   specs/Grammar     the bodies that are programs                       L1, L2, L25 to L29
//   specs/Reach       how far judging gets, and the first refusal        L29, N0, N21 to N28
//   proofs/Grammars   accepted are exactly the programs
//   proofs/Fronts     the carets of an accepted body are the fronts of its commands
//   proofs/Refusals   the number and place of a refusal are those of the first
//   proofs/Standings  exactly the places at a command stand anywhere, in the innermost loop that is open there
