// Drafts and blanked texts (document 02, 12 and 14); the lines set a store of drafts as settings:
//   s a draft saved     f forgotten     r returned (stores.rt)     b the tree with texts blanked (papers.rt)
#![tactic(auto)]

mod papers;
mod stores;

use std::io;
use test_lines::report;

// Makes the call of a line and compares the answer.
pub fn ask(
    rt: &impl Print,
    kind: u8,
    store: &mut [u8],
    tree: &[u8],
    want: &[u8],
) -> io::Result<()> {
    match kind {
        b's' => stores::save(rt, store, tree, want),
        b'f' => stores::forget(rt, store, want),
        b'r' => stores::give_back(rt, store, want),
        b'b' => papers::blanked(rt, tree, want),
        _ => report::unknown(rt),
    }
}
