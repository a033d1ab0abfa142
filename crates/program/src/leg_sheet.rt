// The sheet program without its reading and writing: what it prints of what it was given (document 01, figure F1).
ghost use Rattle.std.specs.Prelude.{◌≡◌, ℕ, ◌≤◌, ◌<◌, List, length, take, drop};
ghost use Rattle.std.proofs.lemmas.List.Edits.{sets};
ghost use Rattle.common.specs.Writing.{Wrote};
ghost use Rattle.program.specs.Program.{refused_text, program_of};

use crate::{ANSWER_BYTES, print_ended};
use common::copy::copy;

// One byte more than the settings with a margin, 42 bytes, and the longest tree, 32,768.
pub const INPUT_BYTES: usize = 32811;

// A buffer for the input: bytes that do not fit change nothing.
pub fn input_buffer() -> [u8; INPUT_BYTES]
    ensures { (b : List ℕ) → program_of (take (length result) b) ≡ program_of b }
{
    [0u8; INPUT_BYTES]
}

// `refused `, the number and 0A; the answer is their length.
fn refuse(number: u8, out: &mut [u8; ANSWER_BYTES]) -> usize
    requires { number < 10 }
    ensures { Wrote result 10 out.new (sets out.old 0 (refused_text number)) }
{
    let mut text = *b"refused 0\n";
    text[8] = b'0' + number;
    copy(out, 0, &text)
}

// The program's whole output is written to the front of `out`, and its length is answered; the bytes past it stay.
pub fn answer(input: &[u8], out: &mut [u8; ANSWER_BYTES]) -> usize
    ensures out_after { take result out.new ≡ program_of input.now }
    ensures within { (result ≤ 64160) × (length out.new ≡ 64160) }
    ensures kept { drop result out.new ≡ drop result out.old }
{
    let end = settings::settings_end(input);
    let w = print_ended(&input[..end], &input[end..], out);
    if w.number == 0 {
        w.count
    } else {
        refuse(w.number, out)
    }
}
