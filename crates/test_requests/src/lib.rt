// Document 02's folds, plans and letters (9 to 11):
//   c a list folded into Columns (folds.rt)     e the ends of a planning tree (plans.rt)     n the Cells nearest to widening the sheet (nearest.rt)
#![tactic(auto)]

mod folds;
mod nearest;
mod plans;

use std::io;
use test_lines::report;

// Makes the call of a line and compares the answer.
pub fn ask(rt: &impl Print, kind: u8, settings: &[u8], tree: &[u8], want: &[u8]) -> io::Result<()> {
    match kind {
        b'c' => folds::fold(rt, settings, tree, want),
        b'e' => plans::plan(rt, settings, tree, want),
        b'n' => nearest::seek(rt, settings, tree, want),
        _ => report::unknown(rt),
    }
}
