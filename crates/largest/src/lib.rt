// The largest counts of constraints that a log can have, in each encoding, and logs that have as many: theorems about the definitions of `model` (proofs/), on which
// nothing else rests. There is no code here.
#![tactic(auto)]
