// A node's natural and allotted size, and the number of nodes below it, as text, from the list that the size collector writes.
use collector::SizeRecord;
use std::io;
use test_lines::{compare, report, texts};
use test_records::Measured;

pub fn measured(
    rt: &impl Print,
    settings: &[u8],
    tree: &[u8],
    node: usize,
    want: &[u8],
) -> io::Result<()> {
    let r = collector::collect_in(settings, tree, [SizeRecord::default(); 512], 512);
    let sizes = r.list.get(node).copied().unwrap_or_default();
    let found = Measured(sizes);
    let right = compare::reads(found, want);
    print!(rt; "node {node}: sizes ")?;
    texts::print_whole(rt, found)?;
    println!(rt; "{}", report::verdict(right))
}
