// The sheet printer: one walk that pastes every leaf's block at its start.
#![tactic(auto)]

ghost use Rattle.std.specs.Prelude.{◌≡◌, length};
ghost use Rattle.common.specs.Refusals.{answer_number};
ghost use Rattle.common.specs.Writing.{Wrote};
ghost use Rattle.sizes.specs.Input.{input_of};
ghost use Rattle.sheet.specs.Answers.{sheet_of};
ghost use Rattle.sheet.specs.Clauses.{frame_refusal, Framed, inside_at, before_of, after_of};

use common::refusal::Refusal;
use frame::{Frame, Written};
use paint::bytes::rows;
use settings::Margin;
use sizes::axis::separator;
use sizes::lists::natural_at;

// 6 and 8 in this order, for an output of `len` bytes.
fn check_room(f: Frame, len: usize) -> Result<(), Refusal>
    ensures { answer_number result ≡ frame_refusal f len }
{
    if frame::is_large(f) {
        return Err(Refusal::TooLarge);
    }
    if len < f.bytes {
        return Err(Refusal::TooShort);
    }
    Ok(())
}

// The left and the top margin; the answer is where the rectangle inside starts.
fn margin_before(out: &mut [u8], m: Margin, f: Frame) -> usize
    requires { Framed m f (length out.old) }
    ensures { Wrote result (inside_at m f.stride) out.new (before_of m f out.old) }
{
    let left = usize::from(m.left);
    rows(out, 0, f.stride, f.lines, left, m.fills[0]);
    rows(out, left, f.stride, usize::from(m.top), f.wide, m.fills[2])
}

// The bottom and the right margin; the rectangle inside starts at `base`.
fn margin_after(out: &mut [u8], m: Margin, f: Frame, base: usize)
    requires { Framed m f (length out.old) × (base ≡ inside_at m f.stride) }
    ensures { out.new ≡ after_of m f out.old }
{
    rows(
        out,
        base + f.tall * f.stride,
        f.stride,
        usize::from(m.bottom),
        f.wide,
        m.fills[3],
    );
    rows(
        out,
        usize::from(m.left) + f.wide,
        f.stride,
        f.lines,
        usize::from(m.right),
        m.fills[1],
    );
}

// The sheet of the settings and the tree, its lines joined by 0A, at the start of the output.
pub fn print_sheet(settings: &[u8], tree: &[u8], out: &mut [u8]) -> Written
    ensures value { result ≡ (sheet_of (input_of settings.now tree.now) out.old).answer }
    ensures shown { out.new ≡ (sheet_of (input_of settings.now tree.now) out.old).memory }
{
    let mut list = [0u16; 2048];
    let m = sizes::measure_tree(settings, tree, &mut list);
    if m.number != 0 {
        return frame::refused(m.number);
    }
    let s = m.settings;
    let f = frame::frame_of(s, natural_at(&list, 0));
    if let Err(refusal) = check_room(f, out.len()) {
        return frame::refused(refusal.number());
    }
    paint::bytes::end_lines(out, f.columns, f.lines);
    let margin = s.margin;
    let base = margin_before(out, margin, f);
    let mut leaves = [0u16; 5120];
    let n = walk::walk_tree(tree, &list, separator(s), f.stride, &mut leaves);
    entries::paint_leaves(tree, &list, &leaves[..n], s, f.stride, &mut out[base..]);
    margin_after(out, margin, f, base);
    Written {
        number: 0,
        count: f.bytes,
    }
}
