// Moves in a lent store.
ghost use Rattle.std.specs.Prelude.{◌≡◌, ◌+◌, ◌-◌, ◌≤◌, ◌++◌, length, take, drop, replicate};
ghost use Rattle.std.proofs.Math.Seq.{paste};
ghost use Rattle.tree.specs.Accepted.{element};

use crate::scan::FieldAt;
use common::copy::copy;

// The bytes from `at + size` on move down to `at`; those behind them are not cleared. A loop, since `copy_within` would be a call of memmove, which the C
// archive is not to need.
fn move_down(s: &mut [u8], at: usize, size: usize)
    requires { at + size ≤ length s.old }
    ensures { s.new ≡ paste s.old at (drop (at + size) s.old) (length s.old - (at + size)) }
{
    for j in 0..s.len() - (at + size) {
        s[at + j] = s[at + size + j];
    }
}

// The field is taken out: what follows it moves down, and zero bytes fill the end.
fn close_gap(s: &mut [u8], field: FieldAt)
    requires { field.at + field.size ≤ length s.old }
    ensures { s.new ≡ take field.at s.old ++ (drop (field.at + field.size) s.old ++ replicate field.size 0) }
{
    move_down(s, field.at, field.size);
    let end = s.len() - field.size;
    s[end..].fill(0);
}

// The same where all bytes from `used` on are zero: these stay, and nothing moves where the field has no bytes.
pub fn take_out(s: &mut [u8], field: FieldAt, used: usize)
    requires { (field.at + field.size ≤ used) × (used ≤ length s.old) × (drop used s.old ≡ replicate (length s.old - used) 0) }
    ensures { s.new ≡ take field.at s.old ++ (drop (field.at + field.size) s.old ++ replicate field.size 0) }
{
    if field.size == 0 {
        return;
    }
    close_gap(&mut s[..used], field);
}

// Writes a field of that tag with the bytes of `t`, from `at` on.
pub fn put_field(s: &mut [u8], at: usize, tag: u8, t: &[u8])
    requires { (at + (3 + length t.now) ≤ length s.old) × (length t.now ≤ 65535) }
    ensures { s.new ≡ take at s.old
        ++ (element tag t.now ++ drop (at + (3 + length t.now)) s.old) }
{
    tree::front::put_front(s, at, tag, t.len());
    copy(s, at + 3, t);
}
