// Standard input and standard output of a program, each whole.
#![tactic(auto)]

pub mod input;
pub mod output;

// How many calls that a signal interrupts are made again, in all: more than anyone sends.
const TRIES: usize = 1000000000;
