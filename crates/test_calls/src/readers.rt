// Both readers.
use crate::fields;
use settings::Settings;
use std::io;
use test_lines::report::{is_nth, verdict};

// The settings reader's number.
pub fn settings(rt: &impl Print, bytes: &[u8], want: &[u8]) -> io::Result<()> {
    let r = settings::read_settings(bytes);
    let right = is_nth(rt, "settings: number ", usize::from(r.number), want, 0)?;
    println!(rt; "{}", verdict(right))
}

// The fields read.
pub fn fields(rt: &impl Print, bytes: &[u8], want: &[u8]) -> io::Result<()> {
    let r = settings::read_settings(bytes);
    print!(rt; "fields:")?;
    fields::compare(rt, &r.settings, want)
}

pub fn defaults(rt: &impl Print, want: &[u8]) -> io::Result<()> {
    print!(rt; "defaults:")?;
    fields::compare(rt, &Settings::new(), want)
}

// The tree reader's number and node count.
pub fn tree(rt: &impl Print, bytes: &[u8], want: &[u8]) -> io::Result<()> {
    let r = tree::read_tree(bytes);
    let number = is_nth(rt, "tree: number ", usize::from(r.number), want, 0)?;
    let nodes = is_nth(rt, ", nodes ", r.nodes, want, 1)?;
    println!(rt; "{}", verdict(number && nodes))
}
