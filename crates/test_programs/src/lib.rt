// Whole outputs of both programs against document 01: of `program::leg_sheet::answer`, and of `program::typed_sheet::answer_typed` for a typed list. The lines
// set the input as a tree:
//   a the whole output     y the whole output for a typed list
#![tactic(auto)]

use std::io;
use test_lines::{compare, report};

// The longest output that is printed.
const SHORT: usize = 200;

// The output is as wanted, and past it are the bytes from before.
fn judge(rt: &impl Print, input: &[u8], n: usize, out: &[u8], want: &[u8]) -> io::Result<()> {
    let verdict = report::verdict(n == want.len() && compare::holds(out, want));
    println!(rt; "{} bytes of input, {n} of output{verdict}", input.len())?;
    match out.get(..n) {
        Some(text) if n <= SHORT => report::bytes(rt, text),
        _ => Ok(()),
    }
}

// Makes the call of a line.
pub fn ask(rt: &impl Print, kind: u8, input: &[u8], want: &[u8]) -> io::Result<()> {
    let mut out = [compare::MADE_OF; program::ANSWER_BYTES];
    let n = match kind {
        b'a' => program::leg_sheet::answer(input, &mut out),
        b'y' => program::typed_sheet::answer_typed(input, &mut out),
        _ => return report::unknown(rt),
    };
    judge(rt, input, n, &out, want)
}
