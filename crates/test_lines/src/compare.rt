// Compares what a call answers and writes with what a line expects.
use std::fmt;
use std::fmt::{Display, Write};

// What lent bytes are filled with before a call.
pub const MADE_OF: u8 = b'#';

// Fills the output again.
pub fn renew(out: &mut [u8]) {
    out.fill(MADE_OF);
}

// Whether the output has the wanted bytes, and past them what it was filled with.
pub fn holds(out: &[u8], want: &[u8]) -> bool {
    match out.strip_prefix(want) {
        Some(rest) => rest.iter().all(|b| *b == MADE_OF),
        None => false,
    }
}

// What a text has still to be.
#[derive(Drop)]
struct Expected<'a>(&'a [u8]);

impl Write for Expected<'_> {
    fn write_str(&mut self, s: &str) -> fmt::Result {
        match self.0.strip_prefix(s.as_bytes()) {
            Some(rest) => {
                self.0 = rest;
                Ok(())
            }
            None => Err(fmt::Error),
        }
    }
}

// Whether a value's text is the wanted one.
pub fn reads<D: Display + Drop>(value: D, want: &[u8]) -> bool {
    let mut left = Expected(want);
    write!(left, "{value}").is_ok() && left.0.is_empty()
}
