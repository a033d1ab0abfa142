// The painter of one leaf's block: its marks, padding and text.
#![tactic(auto)]

mod body;
mod borders;
pub mod bytes;
mod text_lines;

ghost use Rattle.std.specs.Prelude.{◌≡◌, ◌+◌, true, false, length};
ghost use Rattle.block.specs.Block.{block};
ghost use Rattle.paint.specs.Clauses.{pasted, Room, leaf_with, Paintable, Lined, BodyBegins, Rest, ended_of};

use block::Flags;
use borders::Borders;
use settings::Settings;
use sizes::Size;

// A leaf's sizes, natural and allotted, and its flags.
#[derive(Clone, Copy)]
pub struct Shape {
    pub natural: Size,
    pub size: Size,
    pub flags: Flags,
}

// Where a body begins, and the line below it where there are lines.
#[derive(Clone, Copy)]
struct Begun {
    at: usize,
    next: usize,
}

// The marks above a body and on its left, the top-left one at `base`, where there are lines; and spaces where the body will be.
fn paint_before(
    out: &mut [u8],
    base: usize,
    stride: usize,
    lines: bool,
    b: Borders,
    size: Size,
    horizontal: &[u16],
    vertical: &[u16],
) -> Begun
    requires lined { lines ≡ true → Lined b size horizontal.now vertical.now base stride (length out.old) }
    requires room { lines ≡ false → Room base stride size.height size.width (length out.old) }
    ensures { BodyBegins lines b size horizontal.now vertical.now base stride result out.old out.new }
{
    if lines {
        let h = size.height;
        borders::print_top_line(out, base, size.width, b, horizontal);
        let next = borders::print_left(out, base + stride, stride, h, size.width, b, vertical);
        Begun {
            at: base + stride + 1,
            next,
        }
    } else {
        bytes::rows(out, base, stride, size.height, size.width, b' ');
        Begun {
            at: base,
            next: base,
        }
    }
}

// The marks on the right of a body and below it, where there are lines.
fn paint_after(out: &mut [u8], p: Begun, stride: usize, lines: bool, b: Borders, size: Size)
    requires { lines ≡ true → Rest b size p stride (length out.old) }
    ensures { out.new ≡ ended_of lines b size stride p out.old }
{
    if lines {
        let w = size.width;
        borders::print_right(out, p.at + w, stride, size.height, b);
        if b.bottom {
            borders::print_bottom_line(out, p.next, w, b);
        }
    }
}

// The block of a leaf, its first byte at `base`, its lines `stride` apart (`generate_value_table`): its marks, where there are lines, around its body.
pub fn paint_block(
    out: &mut [u8],
    base: usize,
    stride: usize,
    s: Settings,
    text: &[u8],
    x: Shape,
    horizontal: &[u16],
    vertical: &[u16],
)
    requires { Paintable s text.now x.natural x.size x.flags horizontal.now vertical.now base stride (length out.old) }
    ensures { out.new
        ≡ pasted out.old base stride
        (block s (leaf_with text.now x.size x.flags horizontal.now vertical.now)) }
{
    let b = borders::config_borders(s, x.flags);
    let p = paint_before(out, base, stride, s.lines, b, x.size, horizontal, vertical);
    body::paint_body(out, p.at, stride, s, text, x.natural, x.size);
    paint_after(out, p, stride, s.lines, b, x.size);
}
