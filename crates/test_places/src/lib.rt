// Places of the printed sheet and their leaves (document 02, 5 and 6):
//   p LINE COLUMN, then the number, the leaf's node, the line and the column inside its block, for that place
//   m many places and their answers together (marks.rt)
#![tactic(auto)]

mod marks;

use std::io;
use test_lines::report::{is_nth, verdict};
use test_lines::{contents, report};

// The place of the first two numbers, and its answer, which is the other four.
fn place(rt: &impl Print, settings: &[u8], tree: &[u8], want: &[u8]) -> io::Result<()> {
    let line = contents::nth(want, 0);
    let column = contents::nth(want, 1);
    let r = places::leaf_at(settings, tree, line, column);
    print!(rt; "place {line} {column}")?;
    let number = is_nth(rt, ": number ", usize::from(r.number), want, 2)?;
    let node = is_nth(rt, ", node ", r.node, want, 3)?;
    let inside = is_nth(rt, ", line ", r.line, want, 4)?;
    let across = is_nth(rt, ", column ", r.column, want, 5)?;
    println!(rt; "{}", verdict(number && node && inside && across))
}

// Makes the call of a line.
pub fn ask(rt: &impl Print, kind: u8, settings: &[u8], tree: &[u8], want: &[u8]) -> io::Result<()> {
    match kind {
        b'p' => place(rt, settings, tree, want),
        b'm' => marks::marked(rt, settings, tree, want),
        _ => report::unknown(rt),
    }
}
