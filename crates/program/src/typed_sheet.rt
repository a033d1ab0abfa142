// The program that prints a typed list, without its reading and writing: what it prints of what was typed.
ghost use Rattle.std.specs.Prelude.{◌≡◌, ℕ, ◌≤◌, List, length, take};
ghost use Rattle.std.proofs.lemmas.List.Edits.{sets};
ghost use Rattle.common.specs.Writing.{Wrote};
ghost use Rattle.program.specs.TypedProgram.{tree_text, typed_program_of};

use crate::{ANSWER_BYTES, print_ended, words};

// The longest tree.
const TREE_BYTES: usize = 32768;

// One byte more than the longest typed list.
pub const TYPED_BYTES: usize = 131073;

// A buffer for the input: bytes that do not fit change nothing.
pub fn typed_buffer() -> [u8; TYPED_BYTES]
    ensures { (b : List ℕ) → typed_program_of (take (length result) b) ≡ typed_program_of b }
{
    [0u8; TYPED_BYTES]
}

// The sheet of a tree under the default settings and 0A, or why there is none.
fn print_tree(tree: &[u8], out: &mut [u8; ANSWER_BYTES]) -> usize
    ensures wrote { Wrote result (length (tree_text tree.now)) out.new (sets out.old 0 (tree_text tree.now)) }
    ensures within { (result ≤ 64160) × (length out.new ≡ 64160) }
{
    let w = print_ended(
        b"\x10\x00\x1c--||-|+++++++++\x01\x01\x00\x00    \x00\x00\x00\x01\x02",
        tree,
        out,
    );
    if w.number == 0 {
        w.count
    } else {
        words::tell(w.number, 0, 0, out)
    }
}

// The program's whole output is written to the front of `out`, and its length is answered; the bytes past it stay.
pub fn answer_typed(text: &[u8], out: &mut [u8; ANSWER_BYTES]) -> usize
    ensures wrote { Wrote result (length (typed_program_of text.now)) out.new
        (sets out.old 0 (typed_program_of text.now)) }
    ensures within { (result ≤ 64160) × (length out.new ≡ 64160) }
{
    let mut tree = [0u8; TREE_BYTES];
    let t = typed::read_typed(text, &mut tree);
    if t.number == 0 {
        print_tree(&tree[..t.count], out)
    } else {
        words::tell(t.number, t.line, t.column, out)
    }
}
