// A program's answer written to an output whole, and what is said where that fails.
ghost use Rattle.std.specs.Prelude.{OnOk};
ghost use Rattle.std.specs.Io.KnownBytes.{Appends};

use crate::TRIES;
use std::io;
use std::io::{Cursor, ErrorKind, Write};

// A write took no byte; there is no reason.
fn stuck() -> io::Error {
    io::Error::new(ErrorKind::WriteZero, "nothing more can be written")
}

// The whole answer.
pub fn write_answer<W: Write>(output: &mut W, bytes: &[u8]) -> io::Result<()>
    ensures { OnOk result (Appends (W.contents output.old) (W.contents output.new) bytes.now) }
{
    let mut done: usize = 0;
    let mut tries: usize = TRIES;
    while done < bytes.len() {
        match output.write(&bytes[done..]) {
            Ok(0) => return Err(stuck()),
            Ok(more) => done += more,
            Err(e) if e.kind() == ErrorKind::Interrupted && tries > 0 => tries -= 1,
            Err(e) => return Err(e),
        }
    }
    Ok(())
}

// The words of an error without its number, which stands behind them in parentheses.
fn before_number(text: &[u8]) -> &[u8] {
    match text.iter().skip(1).position(|b| *b == b'(') {
        Some(end) => &text[..end],
        None => text,
    }
}

// A line on standard error says why reading or writing failed, after the program's name. Where that fails too, there is nobody to tell.
pub fn report<W: Write>(errors: &mut W, program: &str, e: &io::Error) {
    let mut said = Cursor::new([0u8; 256]);
    let _ = write!(said, "{e}");
    let count = said.position().min(256) as usize;
    let _ = errors.write_all(program.as_bytes());
    let _ = errors.write_all(b": ");
    let _ = errors.write_all(before_number(&said.get_ref()[..count]));
    let _ = errors.write_all(b"\n");
}
