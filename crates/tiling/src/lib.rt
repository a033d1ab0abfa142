// Demand 3 about what the calls answer and write: the statement is in specs/Promises.antt, its proof in proofs/Demand3.antt. This crate has no code.
#![tactic(auto)]
