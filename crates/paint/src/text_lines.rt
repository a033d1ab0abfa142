// A leaf's text, line by line.
ghost use Rattle.std.specs.Prelude.{◌≡◌, ◌+◌, ◌-◌, ◌<◌, ◌≤◌, true, length, drop};
ghost use Rattle.std.proofs.lemmas.List.Edits.{sets};
ghost use Rattle.text.specs.Clauses.{first_feed};
ghost use Rattle.text.specs.Text.{lines, text_width, text_height};
ghost use Rattle.block.specs.Block.{slack_before, indent, text_line};
ghost use Rattle.paint.specs.Clauses.{Room, clear, LaidOver};

use crate::bytes;
use settings::{Alignment, Settings};

// Texts of short lines, of at most so many letters, have a loop of their own: the compiler makes two of `text_lines`, by the tests below.
const SHORT: usize = 16;

// The part of the space that is before the text (`indent_left`, `indent_top`).
#[tactic(auto, unfolding(block::specs::Block::slack_before))]
pub fn indent_start(al: Alignment, available: usize, real: usize) -> usize
    requires { real ≤ available }
    ensures value { result ≡ slack_before al (available - real) }
    ensures within { result + real ≤ available }
{
    let slack = available - real;
    match al {
        Alignment::Start => 0,
        Alignment::Center => slack / 2,
        Alignment::End => slack,
    }
}

// The spaces before a line: by its own width in line mode 1 (`allow_lines_alignment`), else by the widest line's.
#[tactic(auto, unfolding(block::specs::Block::indent))]
fn line_indent(s: Settings, inner: usize, widest: usize, line: &[u8]) -> usize
    requires { (length line.now ≤ widest) × (widest ≤ inner) }
    ensures value { result ≡ indent s inner widest line.now }
    ensures within { result + length line.now ≤ inner }
{
    let width = if s.line_mode { line.len() } else { widest };
    indent_start(s.horizontal, inner, width)
}

// One line of the text, over spaces and padding.
fn text_line(out: &mut [u8], at: usize, s: Settings, inner: usize, widest: usize, line: &[u8])
    requires { (length line.now ≤ widest) × (widest ≤ inner) × (at + (s.left + inner + s.right) ≤ length out.old) }
    ensures out_after { out.new ≡ sets out.old (at + (s.left + indent s inner widest line.now)) line.now }
    ensures within { indent s inner widest line.now + length line.now ≤ inner }
{
    let left = s.left + line_indent(s, inner, widest, line);
    if widest <= SHORT {
        bytes::copy_short(out, at + left, line);
    } else {
        bytes::copy_line(out, at + left, line);
    }
}

// Where the line that starts at `from` ends; the last one ends with the text, and needs no search.
fn end_of_line(text: &[u8], from: usize, widest: usize, last: bool) -> usize
    requires { (from ≤ length text.now) × (last ≡ true → from + first_feed (drop from text.now) ≡ length text.now) }
    ensures { result ≡ from + first_feed (drop from text.now) }
{
    if last {
        text.len()
    } else if widest <= SHORT {
        text::next_feed_near(text, from)
    } else {
        text::next_feed(text, from)
    }
}

// All n lines of the text, one under another, over spaces and padding.
pub fn text_lines(
    out: &mut [u8],
    at: usize,
    stride: usize,
    s: Settings,
    inner: usize,
    widest: usize,
    n: usize,
    text: &[u8],
)
    requires text_len_bound { (length text.now < 65536) × (n ≡ text_height text.now) × (widest ≡ text_width text.now) × (widest ≤ inner)
        × (s.left + inner + s.right ≤ stride) }
    requires room { Room at stride (text_height text.now) (s.left + inner + s.right) (length out.old) }
    ensures { LaidOver (clear s inner) (text_line s inner widest) (lines text.now) at stride out.old out.new }
{
    let mut p = at;
    let mut from = 0;
    for after in (0..n).rev() {
        let end = end_of_line(text, from, widest, after == 0);
        text_line(out, p, s, inner, widest, &text[from..end]);
        p += stride;
        from = end + 1;
    }
}
