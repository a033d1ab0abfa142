// The numbers that each call and each C function answers: specs/Promises.antt, proofs/Numbers.antt, proofs/Exported.antt. Inputs for each number:
// specs/Figures.antt.
// This crate has no code.
#![tactic(auto)]
