// A printer, of sheets or of blocks: with an output one byte too short, one that is exactly full and one that is too long; refusals with an output and with an
// empty one.
use frame::Written;
use std::io;
use test_lines::{compare, contents, report};

// The longest sheet has 64,159 bytes; the rest is past it.
const ROOM: usize = 66000;

// What is lent beyond the wanted bytes.
const MORE: usize = 50;

// What is lent where a refusal is wanted.
const MUCH: usize = 2000;

// The longest output that is printed.
const SHORT: usize = 200;

// One call with this output: the number, the count, and what the output then holds. Answers the count.
fn answers<F: Fn(&mut [u8]) -> Written>(
    rt: &impl Print,
    print: &F,
    out: &mut [u8],
    number: usize,
    want: &[u8],
) -> io::Result<usize>
    requires { F.IsAlwaysCallable print.now }
{
    compare::renew(out);
    let w = print(out);
    if w.number == 0 {
        print!(rt; ", bytes {}", w.count)?;
    } else {
        print!(rt; ", refused {}", w.number)?;
    }
    let right = usize::from(w.number) == number && w.count == want.len();
    let verdict = report::verdict(right && compare::holds(out, want));
    print!(rt; " in {}{verdict}", out.len())?;
    Ok(w.count)
}

// The wanted sheet or block.
pub fn printed<F: Fn(&mut [u8]) -> Written>(
    rt: &impl Print,
    print: F,
    want: &[u8],
) -> io::Result<()>
    requires { F.IsAlwaysCallable print }
{
    let n = want.len();
    if ROOM - MORE < n {
        return report::too_long(rt);
    }
    let mut out = [0u8; ROOM];
    if 0 < n {
        answers(rt, &print, &mut out[..n - 1], 8, &[])?;
    }
    answers(rt, &print, &mut out[..n], 0, want)?;
    let count = answers(rt, &print, &mut out[..n + MORE], 0, want)?;
    println!(rt)?;
    match out.get(..count) {
        Some(text) if count <= SHORT => {
            report::bytes(rt, text)?;
            println!(rt)
        }
        _ => Ok(()),
    }
}

// The wanted refusal.
pub fn refused<F: Fn(&mut [u8]) -> Written>(
    rt: &impl Print,
    print: F,
    want: &[u8],
) -> io::Result<()>
    requires { F.IsAlwaysCallable print }
{
    let number = contents::number(want);
    answers(rt, &print, &mut [0u8; MUCH], number, &[])?;
    answers(rt, &print, &mut [], number, &[])?;
    println!(rt)
}
