// The readers, the size collector, the leaf calls and the sheet printer; each verdict compares the answer with the line:
//   ? the leaf's record                 > the leaf's block          ! the refusal of both leaf calls
//   $ the sheet                         % the sheet printer's refusal
//   s the node's natural and allotted size, and the number of nodes below it
//   r the settings reader's number      f its 28 fields as bytes    d the default settings' 28 fields as bytes
//   t the tree reader's number, and the node count
#![tactic(auto)]

mod fields;
mod leaves;
mod measures;
mod printers;
mod readers;

use std::io;
use test_lines::report;

// Makes the call of a line: an arm for each kind. `want` is what the line has, after the bytes of `&` lines before it.
pub fn ask(
    rt: &impl Print,
    kind: u8,
    settings: &[u8],
    tree: &[u8],
    node: usize,
    want: &[u8],
) -> io::Result<()> {
    match kind {
        b'?' => leaves::record(rt, settings, tree, node, want),
        b'>' => {
            print!(rt; "node {node}")?;
            printers::printed(rt, |out| leaf::print_leaf(settings, tree, node, out), want)
        }
        b'!' => leaves::refused(rt, settings, tree, node, want),
        b'$' => {
            print!(rt; "sheet")?;
            printers::printed(rt, |out| sheet::print_sheet(settings, tree, out), want)
        }
        b'%' => {
            print!(rt; "sheet")?;
            printers::refused(rt, |out| sheet::print_sheet(settings, tree, out), want)
        }
        b's' => measures::measured(rt, settings, tree, node, want),
        b'r' => readers::settings(rt, settings, want),
        b'f' => readers::fields(rt, settings, want),
        b'd' => readers::defaults(rt, want),
        b't' => readers::tree(rt, tree, want),
        _ => report::unknown(rt),
    }
}
