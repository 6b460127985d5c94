// What the functions for C give and leave, by definition (specs/), and what a caller in C relies on beside these equations (proofs/). There is no code here: the
// functions are in `host`, whose contracts are equations with these definitions.
#![tactic(auto)]
