// The size of a planning tree at one end: every range at its least, or every range at its greatest.
ghost use Rattle.std.specs.Prelude.{◌≡◌, ◌+◌, ◌<◌, length};
ghost use Rattle.tree.specs.Planning.{Plan};
ghost use Rattle.tree.specs.Bytes.{axis_of};
ghost use Rattle.sizes.specs.Sizes.{leaf_size};
ghost use Rattle.plan.specs.Ends.{range_size, end_size, outer};
ghost use Rattle.plan.specs.Clauses.{ShortSize, Wide, end_of, ReadyPlan, ReadyPlans};

use settings::Settings;
use sizes::Size;
use sizes::axis::separator;
use sizes::natural::{Span, span_size, with_child};
use text::measure::text_size;

// A text of that width and line count, with the padding around it.
fn padded(settings: Settings, width: usize, height: usize) -> Size
    requires { (width + settings.left + settings.right < 4294967296) × (height + settings.top + settings.bottom < 4294967296) }
    ensures { result ≡ range_size settings width height }
{
    Size {
        width: width + settings.left + settings.right,
        height: height + settings.top + settings.bottom,
    }
}

fn text_end(settings: Settings, text: &[u8]) -> Size
    requires { (length text.now + 1 < 18446744073709551616) × ShortSize (leaf_size settings text.now) }
    ensures { result ≡ leaf_size settings text.now }
{
    let z = text_size(text);
    padded(settings, z.width, z.height)
}

// The four bytes of a range.
fn range_end(settings: Settings, s: &[u8], most: bool) -> Size
    requires { (length s.now ≡ 4) × ShortSize (end_of settings most s.now) }
    ensures { result ≡ end_of settings most s.now }
{
    if most {
        padded(settings, usize::from(s[1]), usize::from(s[3]))
    } else {
        padded(settings, usize::from(s[0]), usize::from(s[2]))
    }
}

// Adds what is around a root of the size z: W and H.
fn outer_size(settings: Settings, z: Size) -> Size
    requires { ShortSize z }
    ensures value { result ≡ outer settings z }
    ensures wide { Wide result }
{
    let marks = 2 * separator(settings);
    let m = settings.margin;
    Size {
        width: usize::from(m.left) + (z.width + marks) + usize::from(m.right),
        height: usize::from(m.top) + (z.height + marks) + usize::from(m.bottom),
    }
}

// The size of the plan at the start of `s`.
#[cycle(end_group_end_node)]
fn end_node(s: &[u8], settings: Settings, most: bool) -> Size
    requires { ReadyPlan settings most s.now }
    ensures { (q : ReadyPlan settings most s.now) → result ≡ end_size settings most q.plan }
{
    let t = tree::front::read_front(s);
    let contents = &s[3..t.end];
    if s[0] == 4 {
        range_end(settings, contents, most)
    } else if t.leaf {
        text_end(settings, contents)
    } else {
        end_group(contents, settings, most, t.across)
    }
}

// The size of a group of the plans of `s`, at least one.
#[cycle(end_group_end_node)]
fn end_group(s: &[u8], settings: Settings, most: bool, across: bool) -> Size
    requires { ReadyPlans settings most across s.now }
    ensures { (q : ReadyPlans settings most across s.now) → result ≡ end_size settings most (Plan.group (axis_of across) q.plans) }
{
    let mut at = 0;
    let mut g = Span {
        along: 0,
        beside: 0,
        children: 0,
    };
    while at < s.len() {
        let rest = &s[at..];
        let used = 3 + tree::front::length_at(rest);
        let z = end_node(rest, settings, most);
        g = with_child(g, across, z);
        at += used;
    }
    span_size(separator(settings), across, g)
}

// W and H at that end of the plan whose bytes are `s`.
pub fn sheet_end(s: &[u8], settings: Settings, most: bool) -> Size
    requires { ReadyPlan settings most s.now }
    ensures value { (q : ReadyPlan settings most s.now) → result ≡ outer settings (end_size settings most q.plan) }
    ensures wide { Wide result }
{
    outer_size(settings, end_node(s, settings, most))
}
