// What is printed of a line: what was asked and answered, and whether that is what the line expects.
use crate::contents;
use std::fmt::{Display, Write};
use std::{fmt, io};

// Prints by `R`, and is Ok where that fails: a print that fails is missing from what was printed, which is compared whole. Each part of a text is printed by
// itself, so that no more is missing.
#[derive(Drop)]
pub struct Lossy<R>(pub R);

impl<R: Print> Write for Lossy<&R> {
    fn write_str(&mut self, s: &str) -> fmt::Result {
        let _ = self.0.write_all(s.as_bytes());
        Ok(())
    }
}

impl<R: Print> Print for Lossy<R> {
    fn print<D: Display + Drop>(&self, value: D) -> io::Result<()> {
        let _ = write!(Lossy(&self.0), "{value}");
        Ok(())
    }

    fn println<D: Display + Drop>(&self, value: D) -> io::Result<()> {
        let _ = write!(Lossy(&self.0), "{value}\n");
        Ok(())
    }

    fn write_all(&self, bytes: &[u8]) -> io::Result<()> {
        let _ = self.0.write_all(bytes);
        Ok(())
    }
}

pub fn verdict(ok: bool) -> &'static str {
    if ok { " ok" } else { " FAILED" }
}

// An error in the lines themselves.
pub fn failed(rt: &impl Print, what: &str) -> io::Result<()> {
    println!(rt; "{what} FAILED")
}

pub fn too_long(rt: &impl Print) -> io::Result<()> {
    failed(rt, "too many bytes")
}

pub fn unknown(rt: &impl Print) -> io::Result<()> {
    failed(rt, "unknown kind of line")
}

// Prints bytes that were written.
pub fn bytes(rt: &impl Print, s: &[u8]) -> io::Result<()> {
    rt.write_all(s)
}

// Prints a number of the answer: whether it is number `k` of the line.
pub fn is_nth(
    rt: &impl Print,
    name: &str,
    found: usize,
    want: &[u8],
    k: usize,
) -> io::Result<bool> {
    print!(rt; "{name}{found}")?;
    Ok(found == contents::nth(want, k))
}
