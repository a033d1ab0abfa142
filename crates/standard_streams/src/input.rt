// An input read whole, as far as a buffer holds it.
ghost use Rattle.std.specs.Prelude.{◌≤◌, ◌<◌, IfOk, length, take};
ghost use Rattle.std.specs.Io.KnownBytes.{Consumes, IsAtEnd};

use crate::TRIES;
use std::io;
use std::io::{ErrorKind, Read};

// The input's bytes at the front of the buffer, all or as many as it holds; the answer is how many.
pub fn read_input<R: Read>(input: &mut R, buffer: &mut [u8]) -> io::Result<usize>
    ensures within { IfOk result (λ n. n ≤ length buffer.new) }

    // Of an input whose bytes are known, those read stood first, and were all where they do not fill the buffer.
    ensures bytes { IfOk result (λ n. Consumes (R.remaining input.old) (R.remaining input.new) (take n buffer.new)) }
    ensures end { IfOk result (λ n. n < length buffer.new → IsAtEnd (R.remaining input.new)) }
{
    let mut done: usize = 0;
    let mut tries: usize = TRIES;
    while done < buffer.len() {
        match input.read(&mut buffer[done..]) {
            Ok(0) => return Ok(done),
            Ok(more) => done += more,
            Err(e) if e.kind() == ErrorKind::Interrupted && tries > 0 => tries -= 1,
            Err(e) => return Err(e),
        }
    }
    Ok(done)
}
