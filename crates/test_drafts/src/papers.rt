// Texts blanked: ROOM NODES.., NUMBER COUNT, and the bytes written.
use std::io;
use test_lines::report::{is_nth, verdict};
use test_lines::{compare, contents, report};

// The most numbers, and the most room, of a line.
const MOST: usize = 16;

const LONGEST: usize = 400;

// The call with the nodes that the line names after its room, and an output of that room; compares the answer and the whole output with the line.
pub fn blanked(rt: &impl Print, tree: &[u8], want: &[u8]) -> io::Result<()> {
    let room = contents::nth(want, 0);
    let named = contents::numbers(want).saturating_sub(1);
    if LONGEST < room || MOST < named {
        return report::too_long(rt);
    }
    let mut nodes = [0u16; MOST];
    let nodes = &mut nodes[..named];
    for (i, node) in nodes.iter_mut().enumerate() {
        *node = (contents::nth(want, i + 1) % 0x1_0000) as u16;
    }
    let mut out = [compare::MADE_OF; LONGEST];
    let out = &mut out[..room];
    let r = blank::blank_texts(tree, nodes, out);
    print!(rt; "blank {named}, lent {room}")?;
    let answer = &want[contents::field(want, 1)..];
    let number = is_nth(rt, ": number ", usize::from(r.number), answer, 0)?;
    let count = is_nth(rt, ", bytes ", r.count, answer, 1)?;
    let bytes = &want[contents::field(want, 2)..];
    let written = r.count == bytes.len() && compare::holds(out, bytes);
    println!(rt; "{}", verdict(number && count && written))
}
