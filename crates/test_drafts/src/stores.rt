// Drafts in a store, which each call leaves to the next. Saved and forgotten: NAME, NUMBER, and the store afterwards. Returned: NAME ROOM, NUMBER COUNT, and
// the bytes copied.
use std::io;
use test_lines::report::{is_nth, verdict};
use test_lines::{compare, contents, report};

// The most room of a line.
const MOST: usize = 64;

// Prints the call's name.
fn name_in(rt: &impl Print, call: &str, want: &[u8]) -> io::Result<u8> {
    let name = contents::nth(want, 0);
    print!(rt; "{call}{name}")?;
    Ok((name % 256) as u8)
}

// Compares the number and the whole store with the line.
fn judge(rt: &impl Print, number: u8, store: &[u8], want: &[u8]) -> io::Result<()> {
    let right = is_nth(rt, ": number ", usize::from(number), want, 1)?;
    let bytes = &want[contents::field(want, 2)..];
    println!(rt; "{}", verdict(right && store == bytes))
}

pub fn save(rt: &impl Print, store: &mut [u8], tree: &[u8], want: &[u8]) -> io::Result<()> {
    let name = name_in(rt, "save ", want)?;
    let number = drafts::save_draft(store, name, tree);
    judge(rt, number, store, want)
}

pub fn forget(rt: &impl Print, store: &mut [u8], want: &[u8]) -> io::Result<()> {
    let name = name_in(rt, "forget ", want)?;
    let number = drafts::forget_draft(store, name);
    judge(rt, number, store, want)
}

// The return into a buffer of the line's room; compares the answer and the whole buffer with the line.
pub fn give_back(rt: &impl Print, store: &[u8], want: &[u8]) -> io::Result<()> {
    let room = contents::nth(want, 1);
    if MOST < room {
        return report::too_long(rt);
    }
    let mut out = [compare::MADE_OF; MOST];
    let out = &mut out[..room];
    let name = name_in(rt, "return ", want)?;
    let r = drafts::return_draft(store, name, out);
    print!(rt; ", lent {room}")?;
    let number = is_nth(rt, ": number ", usize::from(r.number), want, 2)?;
    let count = is_nth(rt, ", bytes ", r.count, want, 3)?;
    let bytes = &want[contents::field(want, 2)..];
    let written = r.count == bytes.len() && compare::holds(out, bytes);
    println!(rt; "{}", verdict(number && count && written))
}
