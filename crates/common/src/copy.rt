// A list copied: what is in `out` from `at` on becomes what is in `from`; the answer is where it ends.
ghost use Rattle.std.specs.Prelude.{◌+◌, ◌≤◌, length};
ghost use Rattle.std.proofs.lemmas.List.Edits.{sets};
ghost use Rattle.common.specs.Writing.{Wrote};

pub fn copy<T: Copy>(out: &mut [T], at: usize, from: &[T]) -> usize
    requires { at + length from.now ≤ length out.old }
    ensures { Wrote result (at + length from.now) out.new (sets out.old at from.now) }
{
    // A loop, which becomes a call of memcpy where it pays: `copy_from_slice` would be one of memmove, which the C archive is not to need.
    for (i, x) in from.iter().enumerate() {
        out[at + i] = *x;
    }
    at + from.len()
}
