// Lists as they are written in a line.
// A list is its entries: `4 2`; `1*512` is 512 times 1, and with `+1` each is 1 more than the one before. `#N` makes the count N. Other words are skipped.
use splits::{Positions, SplitList};
use test_lines::contents;

// Adds `n` entries, as far as there is room: `first`, each next one `by` more.
fn add_run(list: &mut SplitList, first: u16, by: u16, n: usize) {
    let mut piece = first;
    for _ in 0..n {
        if list.count < 512 {
            list.pieces[list.count] = piece;
            list.count += 1;
        }
        piece = piece.wrapping_add(by);
    }
}

// The number after the first byte `b`, or `none`.
fn after(s: &[u8], b: u8, none: usize) -> usize {
    let i = contents::find(s, b);
    if i < s.len() {
        contents::number(contents::past(s, i))
    } else {
        none
    }
}

// The entries that are in `s`.
fn entries(s: &[u8]) -> SplitList {
    let mut list = splits::no_pieces();
    for word in s.split(|b| *b == b' ') {
        if word.first().is_some_and(|b| b.is_ascii_digit()) {
            let first = contents::number(word) % 0x1_0000;
            let by = after(word, b'+', 0) % 0x1_0000;
            add_run(&mut list, first as u16, by as u16, after(word, b'*', 1));
        }
    }
    list
}

pub fn list(s: &[u8]) -> SplitList {
    let mut list = entries(s);
    list.count = after(s, b'#', list.count);
    list
}

// Pieces as positions, so that one comparison serves both.
pub fn widened(list: &SplitList) -> Positions {
    Positions {
        entries: list.pieces.map(u32::from),
        count: list.count,
    }
}
