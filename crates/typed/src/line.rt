// One line of a typed list.
ghost use Rattle.std.specs.Prelude.{◌≡◌, ◌≤◌, ◌<◌, length, get_or, drop};
ghost use Rattle.typed.specs.Line.{spaces, without_return, cell_line, plain_line, plain_of, one_line_of};
ghost use Rattle.typed.specs.Clauses.{LineTold, SpotTold, level_line, kind_tag, word_kind};

use super::typed_text::{Misread, check_text};
use common::refusal::Refusal;

// What a node is, with its tag in a tree.
#[derive(Clone, Copy)]
pub enum Kind {
    Cell = 1,
    Row = 2,
    Column = 3,
}

impl Kind {
    pub fn tag(self) -> u8
        ensures { result ≡ kind_tag self }
    {
        self as u8
    }
}

// A node: what it is, its level, where its text is, and how many bytes the text has.
#[derive(Clone, Copy)]
pub struct NodeSpot {
    pub kind: Kind,
    pub level: usize,
    pub start: usize,
    pub end: usize,
    pub len: usize,
}

// The spaces at the front.
fn indent(line: &[u8]) -> usize
    ensures { result ≡ spaces line.now }
{
    line.iter().take_while(|&&b| b == b' ').count()
}

// The line without a carriage return at its end.
fn trimmed(line: &[u8]) -> &[u8]
    ensures { result.now ≡ without_return line.now }
{
    line.strip_suffix(b"\r").unwrap_or(line)
}

// What the bytes after the spaces name: a Cell's text is all but `row` and `column`.
fn named(s: &[u8]) -> Kind
    ensures { result ≡ word_kind s.now }
{
    if s == b"row".as_slice() {
        Kind::Row
    } else if s == b"column".as_slice() {
        Kind::Column
    } else {
        Kind::Cell
    }
}

// A node after n spaces.
fn leveled(n: usize, kind: Kind, start: usize, end: usize, len: usize) -> Result<NodeSpot, Misread>
    requires { n ≤ 131072 }
    ensures { result ≡ level_line n kind start end len }
{
    if n % 2 != 0 {
        return Err(Misread {
            refusal: Refusal::OddIndent,
            column: n + 1,
        });
    }
    Ok(NodeSpot {
        kind,
        level: n / 2,
        start,
        end,
        len,
    })
}

// A Cell after n spaces, whose text begins at `start`.
fn read_cell(x: &[u8], n: usize, start: usize) -> Result<NodeSpot, Misread>
    requires { (n ≤ start) × (start ≤ length x.now) × (length x.now ≤ 131072) }
    ensures { SpotTold x.now (cell_line n start x.now) result }
{
    match check_text(&x[start..]) {
        Ok(len) => leveled(n, Kind::Cell, start, x.len(), len),
        Err(f) => Err(Misread {
            column: start + f.column,
            ..f
        }),
    }
}

// What follows n spaces, where it is no comment.
fn read_node(x: &[u8], n: usize) -> Result<NodeSpot, Misread>
    requires here { (n < length x.now) × (get_or x.now n 0 ≡ 35 → ⊥) }
    requires short { length x.now ≤ 131072 }
    ensures { SpotTold x.now (plain_line x.now n (drop n x.now)) result }
{
    match named(&x[n..]) {
        Kind::Cell if x[n] == b'\'' => read_cell(x, n, n + 1),
        Kind::Cell => read_cell(x, n, n),
        kind => leveled(n, kind, n, n, 0),
    }
}

// A line without its carriage return.
fn read_plain(x: &[u8]) -> Result<Option<NodeSpot>, Misread>
    requires { length x.now ≤ 131072 }
    ensures { LineTold x.now (plain_of x.now) result }
{
    let n = indent(x);
    if n == x.len() || x[n] == b'#' {
        return Ok(None);
    }
    Ok(Some(read_node(x, n)?))
}

// A line up to its line feed: its node, if it has one.
pub fn read_line(line: &[u8]) -> Result<Option<NodeSpot>, Misread>
    requires { length line.now ≤ 131072 }
    ensures { LineTold line.now (one_line_of line.now) result }
{
    read_plain(trimmed(line))
}
