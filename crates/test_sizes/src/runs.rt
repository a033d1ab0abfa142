// Runs of equal answers.
use std::io;

// `FIRST to LAST: `, or the one number.
pub fn name(rt: &impl Print, first: usize, last: usize) -> io::Result<()> {
    if first < last {
        print!(rt; "{first} to {last}: ")
    } else {
        print!(rt; "{first}: ")
    }
}
