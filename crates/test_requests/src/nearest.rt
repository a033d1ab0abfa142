// The Cells nearest to widening the sheet: ROOM_NODES ROOM_LETTERS, NUMBER COUNT, then each Cell as NODE LETTERS; `none` where there are none.
use std::io;
use test_lines::report::{is_nth, verdict};
use test_lines::{contents, report};

// The most room of a line.
const MOST: usize = 520;

// What an entry is before the call.
const BEFORE: u16 = 7777;

// What entry `i` should be: number `k` of those listed for the first n entries; after them what it was.
fn wanted(s: &[u8], i: usize, n: usize, k: usize) -> usize {
    if i < n {
        contents::nth(s, k)
    } else {
        usize::from(BEFORE)
    }
}

// Whether the first n nodes are those listed, and the others are unchanged.
fn nodes_hold(s: &[u8], n: usize, nodes: &[u16]) -> bool {
    let mut good = true;
    for (i, node) in nodes.iter().enumerate() {
        let k = i % MOST * 2;
        good = good && usize::from(*node) == wanted(s, i, n, k);
    }
    good
}

// The same for the letters.
fn letters_hold(s: &[u8], n: usize, letters: &[u32]) -> bool {
    let mut good = true;
    for (i, count) in letters.iter().enumerate() {
        let k = i % MOST * 2 + 1;
        good = good && *count as usize == wanted(s, i, n, k);
    }
    good
}

// The call for the line's tree with lists of that room; compares the answer and both lists with the line.
pub fn seek(rt: &impl Print, settings: &[u8], tree: &[u8], want: &[u8]) -> io::Result<()> {
    let n = contents::nth(want, 0);
    let l = contents::nth(want, 1);
    if MOST < n || MOST < l {
        return report::too_long(rt);
    }
    let mut nodes = [BEFORE; MOST];
    let mut letters = [u32::from(BEFORE); MOST];
    let nodes = &mut nodes[..n];
    let letters = &mut letters[..l];
    let r = widen::nearest_cells(settings, tree, nodes, letters);
    print!(rt; "{n} and {l}")?;
    let number = is_nth(rt, " lent: number ", usize::from(r.number), want, 2)?;
    let count = is_nth(rt, ", Cells ", r.count, want, 3)?;
    let listed = &want[contents::field(want, 2)..];
    let first = nodes_hold(listed, r.count, nodes);
    let second = letters_hold(listed, r.count, letters);
    println!(rt; "{}", verdict(number && count && first && second))
}
