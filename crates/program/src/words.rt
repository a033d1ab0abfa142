// What is wrong with a typed list, as text.
ghost use Rattle.std.specs.Prelude.{◌≡◌, ◌+◌, ◌≤◌, length};
ghost use Rattle.std.proofs.lemmas.List.Edits.{sets};
ghost use Rattle.common.specs.Writing.{Wrote};
ghost use Rattle.program.specs.Words.{digits, fault_words, place_text, fault_text};

use common::copy::copy;

// A number's digits from `at` on, at most `places` of them; the answer is where they end.
// By hand: `place_text` has six digits of any number at the most, and std prints all.
fn put_digits(n: usize, places: usize, out: &mut [u8], at: usize) -> usize
    requires { at + places ≤ length out.old }
    ensures wrote { Wrote result (at + length (digits places n)) out.new (sets out.old at (digits places n)) }
    ensures few { result ≤ at + places }
{
    if places == 0 {
        return at;
    }
    if n < 10 {
        out[at] = b'0' + n as u8;
        return at + 1;
    }
    let end = put_digits(n / 10, places - 1, out, at);
    out[end] = b'0' + (n % 10) as u8;
    end + 1
}

// The words of a fault: 30 to 39, and 6 of the sheet, which alone is left.
fn fault_words(number: u8) -> &'static [u8]
    ensures words { result.now ≡ fault_words number }
    ensures few { length result.now ≤ 100 }
{
    match number {
        30 => b"the list has over 131,072 bytes",
        31 => b"only ASCII letters, digits, signs and spaces are allowed here: no tab, no accent",
        32 => b"only n or a backslash is allowed after a backslash",
        33 => b"a level is two spaces, and this line begins with an odd number of them",
        34 => b"a second root: indent every line after the first",
        35 => b"too deep: only a row or column has lines inside it, and these are one level deeper",
        36 => b"over 16 levels",
        37 => b"over 512 rows, columns and texts",
        38 => b"the list is too long: with this line its tree has over 32,768 bytes",
        39 => b"the list is empty: no line has a row, a column or a text",
        _ => b"the sheet has over 400 columns or over 160 lines",
    }
}

// Where the fault is, at the front; the answer is where this ends.
fn put_place(line: usize, column: usize, out: &mut [u8]) -> usize
    requires { 30 ≤ length out.old }
    ensures wrote { Wrote result (length (place_text line column)) out.new (sets out.old 0 (place_text line column)) }
    ensures few { result ≤ 30 }
{
    if line == 0 {
        return 0;
    }
    let first = copy(out, 0, b"line ");
    let second = put_digits(line, 6, out, first);
    let third = copy(out, second, b", column ");
    let fourth = put_digits(column, 6, out, third);
    copy(out, fourth, b": ")
}

// The place, the words and 0A at the front; the answer is their length.
pub fn tell(number: u8, line: usize, column: usize, out: &mut [u8]) -> usize
    requires { 200 ≤ length out.old }
    ensures wrote { Wrote result (length (fault_text number line column)) out.new (sets out.old 0 (fault_text number line column)) }
    ensures few { result ≤ 200 }
{
    let at = put_place(line, column, out);
    let end = copy(out, at, fault_words(number));
    out[end] = b'\n';
    end + 1
}
