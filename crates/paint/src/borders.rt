// The marks around a leaf.
ghost use Rattle.std.specs.Prelude.{◌≡◌, ◌+◌, ◌*◌, ◌<◌, ◌≤◌, ◌∷◌, ◌++◌, length, replicate};
ghost use Rattle.std.proofs.lemmas.List.Edits.{sets};
ghost use Rattle.common.specs.Choice.{pick};
ghost use Rattle.block.specs.Block.{edge};
ghost use Rattle.common.specs.Writing.{Wrote};
ghost use Rattle.paint.specs.Clauses.{pasted, Room, space_lines, borders_of, top_of, left_of, right_of, bottom_of};

use crate::bytes;
use block::Flags;
use settings::{Settings, marks};

// The fifteen marks with the leaf's own corners, and whether its right and bottom sides print.
#[derive(Clone, Copy)]
pub struct Borders {
    pub marks: [u8; 15],
    pub right: bool,
    pub bottom: bool,
}

// The leaf's corners, in a copy of the marks.
#[tactic(auto, unfolding(crate::specs::Clauses::borders_of, block::specs::Block::mark))]
pub fn config_borders(s: Settings, f: Flags) -> Borders
    ensures value { result ≡ borders_of s f }
    ensures fifteen { length s.marks ≡ 15 }
{
    let mut m = s.marks;
    let top_left = if f.top_intersection {
        m[marks::INTERSECTION]
    } else if f.top_left {
        m[marks::LEFT_INTERSECTION]
    } else if f.lean_top {
        m[marks::TOP_INTERSECTION]
    } else if f.first_col && !f.first_row {
        m[marks::LEFT_INTERSECTION]
    } else {
        m[marks::TOP_LEFT]
    };
    let top_right = if f.first_row {
        m[marks::TOP_RIGHT]
    } else {
        m[marks::RIGHT_INTERSECTION]
    };
    let bottom_left = if f.first_col {
        m[marks::BOTTOM_LEFT]
    } else {
        m[marks::BOTTOM_INTERSECTION]
    };
    m[marks::TOP_LEFT] = top_left;
    m[marks::TOP_RIGHT] = top_right;
    m[marks::BOTTOM_LEFT] = bottom_left;
    Borders {
        marks: m,
        right: f.last_col,
        bottom: f.last_row,
    }
}

// A corner, w marks, and the right corner where the right side prints.
fn border(out: &mut [u8], at: usize, w: usize, corner: u8, mark: u8, right: bool, last: u8)
    requires { at + (1 + (w + pick right 1 0)) ≤ length out.old }
    ensures { out.new ≡ sets out.old at (corner ∷ (replicate w mark ++ edge 1 right last)) }
{
    out[at] = corner;
    let p = bytes::fill(out, at + 1, w, mark);
    if right {
        out[p] = last;
    }
}

pub fn print_top_line(out: &mut [u8], at: usize, w: usize, b: Borders, pieces: &[u16])
    requires { (w < 65536) × (length pieces.now ≤ 512) × (at + (1 + (w + pick b.right 1 0)) ≤ length out.old) }
    ensures { out.new ≡ sets out.old at (top_of b w pieces.now) }
{
    border(
        out,
        at,
        w,
        b.marks[marks::TOP_LEFT],
        b.marks[marks::TOP],
        b.right,
        b.marks[marks::TOP_RIGHT],
    );
    bytes::cross(
        out,
        at + 1,
        1,
        w,
        pieces,
        b.marks[marks::BOTTOM_INTERSECTION],
    );
}

#[tactic(auto, unfolding(crate::specs::Clauses::bottom_of))]
pub fn print_bottom_line(out: &mut [u8], at: usize, w: usize, b: Borders)
    requires { at + (1 + (w + pick b.right 1 0)) ≤ length out.old }
    ensures { out.new ≡ sets out.old at (bottom_of b w) }
{
    border(
        out,
        at,
        w,
        b.marks[marks::BOTTOM_LEFT],
        b.marks[marks::BOTTOM],
        b.right,
        b.marks[marks::BOTTOM_RIGHT],
    );
}

// The left marks of n lines, with w spaces behind each; the answer is where the line after them begins.
pub fn print_left(
    out: &mut [u8],
    at: usize,
    stride: usize,
    n: usize,
    w: usize,
    b: Borders,
    pieces: &[u16],
) -> usize
    requires n_bound { (n < 65536) × (length pieces.now ≤ 512) × (1 + w ≤ stride) }
    requires room { Room at stride n (1 + w) (length out.old) }
    ensures { Wrote result (at + n * stride) out.new
        (pasted (pasted out.old at stride (left_of b n pieces.now)) (at + 1) stride (space_lines n w)) }
{
    let next = bytes::marked_rows(out, at, stride, n, w, b.marks[marks::LEFT]);
    bytes::cross(
        out,
        at,
        stride,
        n,
        pieces,
        b.marks[marks::RIGHT_INTERSECTION],
    );
    next
}

// The right marks of n lines, where the right side prints.
pub fn print_right(out: &mut [u8], at: usize, stride: usize, n: usize, b: Borders)
    requires { Room at stride n (pick b.right 1 0) (length out.old) }
    ensures { out.new ≡ pasted out.old at stride (right_of b n) }
{
    if b.right {
        bytes::stack(out, at, stride, n, b.marks[marks::RIGHT]);
    }
}
