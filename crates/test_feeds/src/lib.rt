// `count_feeds` on slices of any bytes, which the lines set as trees:
//   c FEEDS LONGEST: the slice's line feeds and its longest line
//   e FIRST LAST: slices of the lengths FIRST to LAST, without a line feed and with one at each place, against a count byte by byte
//   v AT: each of the 256 byte values at each of the eight places of the slice from AT on, against a count byte by byte
#![tactic(auto)]

mod slices;

use std::io;
use test_lines::{contents, report};

// Makes the call of a line; `want` is its contents.
pub fn ask(rt: &impl Print, kind: u8, slice: &mut [u8], want: &[u8]) -> io::Result<()> {
    match kind {
        b'c' => slices::counted(rt, slice, contents::number(want), contents::second(want)),
        b'e' => slices::each_length(rt, contents::number(want), contents::second(want)),
        b'v' => slices::values(rt, slice, contents::number(want)),
        _ => report::unknown(rt),
    }
}
