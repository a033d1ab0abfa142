// Leaf records, as text, and the refusals of both leaf calls.
use crate::printers;
use std::io;
use test_lines::{compare, contents, report, texts};
use test_records::Record;

// The text of a refused record: 0 or no in every field.
const BLANK: &[u8] = b"0 by 0, across none, down none, nnnnnnnn, pair 0 0";

// The record of the leaf: its number, the node that it names, and the rest as in `want`; it is printed.
fn compare_record(
    rt: &impl Print,
    settings: &[u8],
    tree: &[u8],
    node: usize,
    number: usize,
    named: usize,
    want: &[u8],
) -> io::Result<()> {
    let r = leaf::leaf_record(settings, tree, node);
    let found = Record(&r);
    let right = usize::from(r.number) == number && r.node == named && compare::reads(found, want);
    print!(rt; ", number {}: ", r.number)?;
    texts::print_whole(rt, found)?;
    println!(rt; "{}", report::verdict(right))
}

pub fn record(
    rt: &impl Print,
    settings: &[u8],
    tree: &[u8],
    node: usize,
    want: &[u8],
) -> io::Result<()> {
    print!(rt; "node {node}")?;
    compare_record(rt, settings, tree, node, 0, node, want)
}

// Both calls answer this number.
pub fn refused(
    rt: &impl Print,
    settings: &[u8],
    tree: &[u8],
    node: usize,
    want: &[u8],
) -> io::Result<()> {
    print!(rt; "node {node}")?;
    printers::refused(rt, |out| leaf::print_leaf(settings, tree, node, out), want)?;
    print!(rt; "its record")?;
    let number = contents::number(want);
    compare_record(rt, settings, tree, node, number, 0, BLANK)
}
