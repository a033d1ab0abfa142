// Lists folded: ROOM WIDTH BUDGET, NUMBER COLUMNS HEIGHT TRIES MISS, then the cells in each Column; `none` where there are none.
use std::io;
use test_lines::report::{is_nth, verdict};
use test_lines::{contents, report};

// The most room of a line: more entries than a list has cells.
const MOST: usize = 210;

// What an entry is before the call.
const BEFORE: u16 = 7777;

// Whether the first n entries are those listed, and the others are unchanged.
fn hold(s: &[u8], n: usize, columns: &[u16]) -> bool {
    for (i, column) in columns.iter().enumerate() {
        let want = if i < n {
            contents::nth(s, i)
        } else {
            usize::from(BEFORE)
        };
        if usize::from(*column) != want {
            return false;
        }
    }
    true
}

// Folds the line's list with that much room, and compares the answer and the columns with the line.
pub fn fold(rt: &impl Print, settings: &[u8], tree: &[u8], want: &[u8]) -> io::Result<()> {
    let room = contents::nth(want, 0);
    if MOST < room {
        return report::too_long(rt);
    }
    let mut columns = [BEFORE; MOST];
    let columns = &mut columns[..room];
    let width = contents::nth(want, 1);
    let budget = contents::nth(want, 2);
    print!(rt; "width {width}, budget {budget}")?;
    let r = fold::fold_list(settings, tree, width, budget, columns);
    let number = is_nth(rt, ": number ", usize::from(r.number), want, 3)?;
    let count = is_nth(rt, ", Columns ", r.columns, want, 4)?;
    let height = is_nth(rt, ", height ", r.height, want, 5)?;
    let tries = is_nth(rt, ", tries ", r.tries, want, 6)?;
    let miss = is_nth(rt, ", miss ", r.miss, want, 7)?;
    let listed = hold(&want[contents::field(want, 2)..], r.columns, columns);
    let right = number && count && height && tries && miss && listed;
    println!(rt; "{}", verdict(right))
}
