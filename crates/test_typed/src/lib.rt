// Typed lists, which the lines set as trees:
//   t N: `read_typed` is called with N bytes lent
// For each call: the answer; `ok` where the lent bytes past those written are unchanged; and what was written, up to 120 bytes, with the node count that
// `read_tree` gives it, `\` and two hex digits encoding a byte.
#![tactic(auto)]

use std::io;
use test_lines::{compare, contents, report, texts};

// The most bytes lent.
const MOST: usize = 33000;

// Prints bytes, encoded where they are no ASCII characters.
fn show(rt: &impl Print, s: &[u8]) -> io::Result<()> {
    for b in s {
        match *b {
            b' '..=b'~' if *b != b'\\' => report::bytes(rt, &[*b])?,
            b => texts::print_whole(rt, format_args!("\\{b:02x}"))?,
        }
    }
    Ok(())
}

// What was written.
fn written(rt: &impl Print, bytes: &[u8]) -> io::Result<()> {
    if bytes.is_empty() {
        return Ok(());
    }
    print!(rt; ", nodes {}", tree::read_tree(bytes).nodes)?;
    if bytes.len() <= 120 {
        print!(rt; ": ")?;
        show(rt, bytes)?;
    }
    Ok(())
}

// The call with these bytes lent.
fn call(rt: &impl Print, text: &[u8], out: &mut [u8]) -> io::Result<()> {
    compare::renew(out);
    let r = typed::read_typed(text, out);
    if r.number == 0 {
        print!(rt; "{}, bytes {}", r.number, r.count)?;
    } else {
        print!(rt; "{}, line {}, column {}", r.number, r.line, r.column)?;
    }
    let (bytes, rest) = out.split_at(contents::within(r.count, out));
    print!(rt; "{}", report::verdict(compare::holds(rest, b"")))?;
    written(rt, bytes)?;
    println!(rt)
}

// Makes the call of a line with as many bytes lent as it says, or as many as there are.
pub fn ask(rt: &impl Print, kind: u8, text: &[u8], want: &[u8]) -> io::Result<()> {
    if kind != b't' {
        return report::unknown(rt);
    }
    let mut out = [0u8; MOST];
    call(rt, text, &mut out[..contents::number(want).min(MOST)])
}
