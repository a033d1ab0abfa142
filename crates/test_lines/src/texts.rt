// Texts that are printed in one go.
use crate::report;
use std::fmt::Display;
use std::io;
use std::io::{Cursor, Write};

// The longest: a record's, of two lists of 512 pieces.
const LONGEST: usize = 4200;

// Prints a value's text in one go.
pub fn print_whole<D: Display + Drop>(rt: &impl Print, value: D) -> io::Result<()> {
    let mut text = Cursor::new([0u8; LONGEST]);
    let _ = write!(text, "{value}");
    let count = text.position().min(LONGEST as u64) as usize;
    report::bytes(rt, &text.get_ref()[..count])
}
