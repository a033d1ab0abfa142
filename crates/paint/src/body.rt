// The lines between the top and the bottom line, without their marks.
ghost use Rattle.std.specs.Prelude.{◌≡◌, ◌+◌, ◌*◌, ◌<◌, ◌≤◌, true, ◌++◌, length, replicate};
ghost use Rattle.sizes.specs.Sizes.{leaf_size};
ghost use Rattle.sizes.specs.Clauses.{Fits};
ghost use Rattle.block.specs.Block.{body};
ghost use Rattle.common.specs.Writing.{Wrote};
ghost use Rattle.paint.specs.Clauses.{pasted, Room, body_rows_of, space_lines, clear, ground, ground_lines, Blank, Turned};

use crate::{bytes, text_lines};
use settings::Settings;
use sizes::Size;

// Where a text is in its allotted size: the lines of spaces above and below it and its padding, the columns between the paddings, the longest line.
#[derive(Clone, Copy)]
struct BodyRows {
    above: usize,
    below: usize,
    inner: usize,
    widest: usize,
}

// All differences at once (`indent_vertical`, `indent_horizontal`).
#[tactic(auto, unfolding(crate::specs::Clauses::body_rows_of))]
fn plan_body(s: Settings, natural: Size, size: Size) -> BodyRows
    requires { Fits natural size × (s.left + s.right ≤ natural.width) }
    ensures { result ≡ body_rows_of s natural size }
{
    let al = s.vertical;
    let above = text_lines::indent_start(al, size.height, natural.height);
    BodyRows {
        above: above,
        below: size.height - natural.height - above,
        inner: size.width - s.left - s.right,
        widest: natural.width - s.left - s.right,
    }
}

// n lines of one byte, then m of another.
fn rows_twice(
    out: &mut [u8],
    at: usize,
    stride: usize,
    w: usize,
    n: usize,
    b: u8,
    m: usize,
    c: u8,
) -> usize
    requires { Room at stride (n + m) w (length out.old) }
    ensures { Wrote result (at + (n + m) * stride) out.new
        (pasted out.old at stride (replicate n (replicate w b) ++ replicate m (replicate w c))) }
{
    let p = bytes::rows(out, at, stride, n, w, b);
    bytes::rows(out, p, stride, m, w, c)
}

// Whether every padding is of spaces.
fn is_blank(fills: [u8; 4]) -> bool
    ensures { result ≡ true → Blank fills }
{
    fills == *b"    "
}

// n lines with the left and the right padding, and spaces between them; the answer is where the next line begins.
fn paint_sides(
    out: &mut [u8],
    at: usize,
    stride: usize,
    s: Settings,
    inner: usize,
    n: usize,
) -> usize
    requires right_bound { s.left + inner + s.right ≤ stride }
    requires room { Room at stride n (s.left + inner + s.right) (length out.old) }
    ensures { Wrote result (at + n * stride) out.new (pasted out.old at stride (replicate n (clear s inner))) }
{
    let text = at + s.left;
    let right = text + inner;
    bytes::rows(out, at, stride, n, s.left, s.fills[0]);
    bytes::rows(out, text, stride, n, inner, b' ');
    bytes::rows(out, right, stride, n, s.right, s.fills[1]);
    at + n * stride
}

// A body without its text: spaces and top padding, n lines for the text, bottom padding and spaces.
fn paint_padded(
    out: &mut [u8],
    at: usize,
    stride: usize,
    s: Settings,
    plan: BodyRows,
    n: usize,
    w: usize,
)
    requires right_value { (s.left + plan.inner + s.right ≡ w) × (w ≤ stride) }
    requires room { Room at stride (ground_lines s plan n) w (length out.old) }
    ensures { out.new ≡ pasted out.old at stride (ground s plan n w) }
{
    let p = rows_twice(out, at, stride, w, plan.above, b' ', s.top, s.fills[2]);
    let q = paint_sides(out, p, stride, s, plan.inner, n);
    rows_twice(out, q, stride, w, s.bottom, s.fills[3], plan.below, b' ');
}

// The same over spaces: nothing where every padding is of spaces.
fn paint_ground(
    out: &mut [u8],
    at: usize,
    stride: usize,
    s: Settings,
    plan: BodyRows,
    n: usize,
    size: Size,
)
    requires right_value { (s.left + plan.inner + s.right ≡ size.width) × (size.width ≤ stride) × (ground_lines s plan n ≡ size.height) }
    requires room { Room at stride size.height size.width (length out.old) }
    ensures { Turned (space_lines size.height size.width) (ground s plan n size.width) at stride out.old out.new }
{
    if !is_blank(s.fills) {
        paint_padded(out, at, stride, s, plan, n, size.width);
    }
}

// Over spaces the padding, and over both the text.
pub fn paint_body(
    out: &mut [u8],
    at: usize,
    stride: usize,
    s: Settings,
    text: &[u8],
    natural: Size,
    size: Size,
)
    requires text_len_bound { (length text.now < 65536) × (natural ≡ leaf_size s text.now) × Fits natural size × (size.width ≤ stride) }
    requires room { Room at stride size.height size.width (length out.old) }
    ensures { Turned (space_lines size.height size.width) (body s text.now size) at stride out.old out.new }
{
    let plan = plan_body(s, natural, size);
    let n = natural.height - s.top - s.bottom;
    paint_ground(out, at, stride, s, plan, n, size);
    let p = at + (plan.above + s.top) * stride;
    text_lines::text_lines(out, p, stride, s, plan.inner, plan.widest, n, text);
}
