// The size collector and the sharing helper against documents 01 and 02. After each call of the collector its whole list is printed, so that the program's
// `stdout` has the numbers that these documents give:
//   - a comment: how the numbers follow
//   l N: the collector is called with the first N entries of a list lent
//   s SPARE N: the sharing helper is called for the indices 0 to N, with the width priority of the settings given
#![tactic(auto)]

mod lists;
mod runs;
mod shares;

use std::io;
use test_lines::{contents, report};

// Makes the call of a line; `want` is its contents.
pub fn ask(rt: &impl Print, kind: u8, settings: &[u8], tree: &[u8], want: &[u8]) -> io::Result<()> {
    match kind {
        b'l' => lists::lend(rt, settings, tree, contents::number(want)),
        b's' => shares::among(rt, settings, contents::number(want), contents::second(want)),
        b'-' => Ok(()),
        _ => report::unknown(rt),
    }
}
