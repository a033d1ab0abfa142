// Bytes and lines of bytes in the lent output.
ghost use Rattle.std.specs.Prelude.{◌≡◌, ◌+◌, ◌-◌, ◌*◌, ◌<◌, ◌≤◌, [], ◌∷◌, length, take, drop, replicate};
ghost use Rattle.std.proofs.lemmas.List.Edits.{sets};
ghost use Rattle.splits.specs.Splits.{named};
ghost use Rattle.common.specs.Writing.{Wrote};
ghost use Rattle.paint.specs.Clauses.{pasted, fed, Room, crossed};

use common::copy::copy;

// The n bytes from `at` on become `byte`. No `fill`: that stores the last byte apart, which is slower here.
fn run(out: &mut [u8], at: usize, n: usize, byte: u8)
    requires { at + n ≤ length out.old }
    ensures { out.new ≡ sets out.old at (replicate n byte) }
{
    for i in at..at + n {
        out[i] = byte;
    }
}

// The same of K to 2 K bytes, by two runs of K that may overlap, each a store or two.
fn two_runs<const K: usize>(out: &mut [u8], at: usize, n: usize, byte: u8)
    requires { (at + n ≤ length out.old) × (K ≤ n) × (n ≤ K + K) }
    ensures { out.new ≡ sets out.old at (replicate n byte) }
{
    run(out, at, K, byte);
    run(out, at + (n - K), K, byte);
}

// The same of up to three bytes: the first, the last, and the one between.
fn few(out: &mut [u8], at: usize, n: usize, byte: u8)
    requires { (at + n ≤ length out.old) × (n ≤ 3) }
    ensures { out.new ≡ sets out.old at (replicate n byte) }
{
    if n == 0 {
        return;
    }
    out[at] = byte;
    out[at + (n - 1)] = byte;
    out[at + n / 2] = byte;
}

// The same, short runs without a loop.
fn fill_run(out: &mut [u8], at: usize, n: usize, byte: u8)
    requires { at + n ≤ length out.old }
    ensures { out.new ≡ sets out.old at (replicate n byte) }
{
    if n < 4 {
        few(out, at, n, byte);
    } else if n <= 8 {
        two_runs::<4>(out, at, n, byte);
    } else if n <= 16 {
        two_runs::<8>(out, at, n, byte);
    } else if n <= 32 {
        two_runs::<16>(out, at, n, byte);
    } else {
        run(out, at, n, byte);
    }
}

// The n bytes from `at` on become `byte`; the answer is where they end.
pub fn fill(out: &mut [u8], at: usize, n: usize, byte: u8) -> usize
    requires { at + n ≤ length out.old }
    ensures { Wrote result (at + n) out.new (sets out.old at (replicate n byte)) }
{
    fill_run(out, at, n, byte);
    at + n
}

// The N bytes from `at` on become those of `line` from `from` on. All are read before one is written, so each is a load and a store, even if the compiler
// can't know that both lists are apart.
fn copy_fixed<const N: usize>(out: &mut [u8], at: usize, line: &[u8], from: usize)
    requires { (at + N ≤ length out.old) × (from + N ≤ length line.now) }
    ensures { out.new ≡ sets out.old at (take N (drop from line.now)) }
{
    let mut bytes = [0u8; N];
    bytes.copy_from_slice(&line[from..from + N]);
    copy(out, at, &bytes);
}

// The bytes from `at` on become those of `line`, N to 2 N, by two copies that may overlap.
fn two_copies<const N: usize>(out: &mut [u8], at: usize, line: &[u8])
    requires { (at + length line.now ≤ length out.old) × (N ≤ length line.now) × (length line.now ≤ N + N) }
    ensures { out.new ≡ sets out.old at line.now }
{
    let last = line.len() - N;
    copy_fixed::<N>(out, at, line, 0);
    copy_fixed::<N>(out, at + last, line, last);
}

// The same of up to three bytes: the first, the last, and the one between.
fn copy_few(out: &mut [u8], at: usize, line: &[u8])
    requires { (at + length line.now ≤ length out.old) × (length line.now ≤ 3) }
    ensures { out.new ≡ sets out.old at line.now }
{
    let n = line.len();
    if n == 0 {
        return;
    }
    out[at] = line[0];
    out[at + (n - 1)] = line[n - 1];
    out[at + n / 2] = line[n / 2];
}

// The same of up to 16 bytes.
pub fn copy_short(out: &mut [u8], at: usize, line: &[u8])
    requires { (at + length line.now ≤ length out.old) × (length line.now ≤ 16) }
    ensures { out.new ≡ sets out.old at line.now }
{
    if 8 <= line.len() {
        two_copies::<8>(out, at, line);
    } else if 4 <= line.len() {
        two_copies::<4>(out, at, line);
    } else {
        copy_few(out, at, line);
    }
}

// The same of any number, short lines without a loop.
pub fn copy_line(out: &mut [u8], at: usize, line: &[u8])
    requires { at + length line.now ≤ length out.old }
    ensures { out.new ≡ sets out.old at line.now }
{
    if 16 < line.len() {
        copy(out, at, line);
    } else {
        copy_short(out, at, line);
    }
}

// n lines of w bytes, the first at `at`, each `stride` after the one before; the answer is where the next line begins.
pub fn rows(out: &mut [u8], at: usize, stride: usize, n: usize, w: usize, byte: u8) -> usize
    requires { Room at stride n w (length out.old) }
    ensures { Wrote result (at + n * stride) out.new (pasted out.old at stride (replicate n (replicate w byte))) }
{
    let mut p = at;
    for _ in 0..n {
        fill(out, p, w, byte);
        p += stride;
    }
    p
}

// n lines of a mark and w spaces, at the places that `rows` has. The loop goes by the place: with a count the compiler would unroll it, which costs where n is
// small.
pub fn marked_rows(out: &mut [u8], at: usize, stride: usize, n: usize, w: usize, mark: u8) -> usize
    requires { (1 ≤ stride) × Room at stride n (1 + w) (length out.old) }
    ensures { Wrote result (at + n * stride) out.new (pasted out.old at stride (replicate n (mark ∷ replicate w 32))) }
{
    let end = at + n * stride;
    let mut p = at;
    while p < end {
        out[p] = mark;
        fill(out, p + 1, w, b' ');
        p += stride;
    }
    p
}

// n lines of one byte: as `rows` at width 1, with one store a line.
pub fn stack(out: &mut [u8], at: usize, stride: usize, n: usize, byte: u8) -> usize
    requires { Room at stride n 1 (length out.old) }
    ensures { Wrote result (at + n * stride) out.new (pasted out.old at stride (replicate n (byte ∷ []))) }
{
    let mut p = at;
    for _ in 0..n {
        out[p] = byte;
        p += stride;
    }
    p
}

// A 0A behind each but the last of n lines of w bytes, which follow one another from the start on.
#[tactic(auto, unfolding(crate::specs::Clauses::fed))]
pub fn end_lines(out: &mut [u8], w: usize, n: usize)
    requires { Room w (w + 1) (n - 1) 1 (length out.old) }
    ensures { out.new ≡ fed w n out.old }
{
    stack(out, w, w + 1, n.saturating_sub(1), b'\n');
}

// The places of n, `step` apart from `at` on, that the squashed list names become `byte` (`short_splits`, `squash_splits`).
pub fn cross(out: &mut [u8], at: usize, step: usize, n: usize, pieces: &[u16], byte: u8)
    requires n_bound { (n < 65536) × (length pieces.now ≤ 512) }
    requires room { Room at step n 1 (length out.old) }
    ensures { out.new ≡ crossed out.old at step n (named n pieces.now) byte }
{
    let mut pos = 0;
    for (i, piece) in pieces.iter().enumerate() {
        pos += usize::from(*piece);
        if n <= pos {
            return;
        }
        let k = pos + i;
        if k < n {
            out[at + k * step] = byte;
        }
    }
}
