// Standard input: a typed list.
// Standard output: what `program::typed_sheet::answer_typed` says, the sheet under the default settings and 0A, or what is wrong and 0A.
// Where reading or writing fails, a line on standard error reports it; the exit status is 0 all the same.
#![tactic(auto)]

ghost use Rattle.std.specs.Prelude.{OnOk, IfSome};
ghost use Rattle.std.specs.Io.KnownBytes.{Appends};
ghost use Rattle.program.specs.TypedProgram.{typed_program_of};

use standard_streams::input::read_input;
use standard_streams::output::{report, write_answer};
use std::io;
use std::io::{Read, Write};

// Writes the whole answer.
fn print<W: Write>(text: &[u8], output: &mut W) -> io::Result<()>
    ensures { OnOk result (Appends (W.contents output.old) (W.contents output.new) (typed_program_of text.now)) }
{
    let mut out = [0u8; program::ANSWER_BYTES];
    let n = program::typed_sheet::answer_typed(text, &mut out);
    write_answer(output, &out[..n])
}

// Writes the whole answer. Of an input whose bytes are known it is the answer to all of them, also where the buffer has no room for the last.
fn run<R: Read, W: Write>(input: &mut R, output: &mut W) -> io::Result<()>
    ensures { OnOk result (IfSome (R.remaining input.old)
        (λ xs. Appends (W.contents output.old) (W.contents output.new) (typed_program_of xs))) }
{
    let mut buffer = program::typed_sheet::typed_buffer();
    let n = read_input(input, &mut buffer)?;
    print(&buffer[..n], output)
}

fn main(rt: HostRuntime) {
    if let Err(e) = run(&mut rt.stdin(), &mut rt.stdout()) {
        report(&mut rt.stderr(), "typed_sheet", &e);
    }
}
