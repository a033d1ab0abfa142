// Numbers copied between lent lists and values.
ghost use Rattle.std.specs.Prelude.{◌≡◌, ◌+◌, ◌≤◌, ◌<◌, length};
ghost use Rattle.std.proofs.lemmas.List.Edits.{sets};
ghost use Rattle.c_encoding.specs.Numbers.{list_numbers, position_numbers};
ghost use Rattle.c_encoding.specs.Numbers as numbers;

use common::copy::copy;
use splits::{Positions, SplitList};

// Yes is 1, no is 0.
pub fn bit(b: bool) -> u16
    ensures { result ≡ numbers.bit b }
{
    u16::from(b)
}

// The numbers of `out` from `at` on become these bytes.
pub fn widen_bytes(out: &mut [u16], at: usize, from: &[u8])
    requires { at + length from.now ≤ length out.old }
    ensures { out.new ≡ sets out.old at from.now }
{
    for (i, byte) in from.iter().enumerate() {
        out[at + i] = u16::from(*byte);
    }
}

// A list from `at` on: its count, then its 512 entries.
pub fn put_list(list: SplitList, out: &mut [u16], at: usize)
    requires { (at < 65536) × (list.count ≤ 512) × (at + 513 ≤ length out.old) }
    ensures { out.new ≡ sets out.old at (list_numbers list) }
{
    let end = copy(out, at, &[list.count as u16]);
    copy(out, end, &list.pieces);
}

// Positions in the same form.
pub fn put_positions(list: Positions, out: &mut [u32])
    requires { (list.count ≤ 512) × (513 ≤ length out.old) }
    ensures { out.new ≡ sets out.old 0 (position_numbers list) }
{
    let end = copy(out, 0, &[list.count as u32]);
    copy(out, end, &list.entries);
}
