// Split lists at their bounds, against document 01. Each case is printed with its verdict; commas separate its fields:
//   c LIST, at W, took LIST, left LIST, yes or no, pair TAKEN REST     `short_splits3`, by value and in place
//   v .., l ..                                      the same by value alone, in place alone, with `refused N` for yes or no
//   s LIST, at W, positions LIST, left LIST         `short_splits`; after a refusal with `refused N`
//   j PIECE, and LIST, gives LIST                   pieces copied behind one in lent memory
#![tactic(auto)]

mod cases;
mod fields;
mod lists;

use std::io;
use test_lines::report;

// Makes the call of a line.
pub fn ask(rt: &impl Print, kind: u8, case: &[u8]) -> io::Result<()> {
    let name = match kind {
        b'c' => "cut ",
        b'v' => "value ",
        b'l' => "lent ",
        b's' => "short ",
        b'j' => "join ",
        _ => "unknown kind of line: ",
    };
    print!(rt; "{name}")?;
    report::bytes(rt, case)?;
    println!(rt; "{}", report::verdict(cases::holds(kind, case)))
}
