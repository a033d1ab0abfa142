// The lines of a typed list, one after the other: the nodes and their levels, or the first fault.
ghost use Rattle.std.specs.Prelude.{◌≡◌, ◌≤◌, length};
ghost use Rattle.typed.specs.Scan.{place_fault, scan_lines};
ghost use Rattle.typed.specs.Line.{one_line_of};
ghost use Rattle.typed.specs.Clauses.{place_result, placed_line, SmallState, scan_next, moved, LineTold, ScanTold};

use super::ListFault;
use super::line::{Kind, NodeSpot, read_line};
use super::typed_text::Misread;
use common::refusal::Refusal;
use text::next_feed;

// Totals of the nodes so far: their number, the deepest level that the next may have, the bytes of their tree.
#[derive(Clone, Copy)]
pub struct ScanState {
    pub count: usize,
    pub may: usize,
    pub total: usize,
}

impl ScanState {
    // Whether a node at `level` whose own text has `len` bytes may follow.
    #[tactic(auto, unfolding(crate::specs::Scan::place_fault, common::specs::Refusals::refusal_of))]
    fn place(self, level: usize, len: usize) -> Result<(), Refusal>
        requires { (self.total ≤ 32768) × (len ≤ 131072) }
        ensures { result ≡ place_result (place_fault self level len) }
    {
        if 0 < self.count && level == 0 {
            return Err(Refusal::SecondRoot);
        }
        if self.may < level {
            return Err(Refusal::NoParent);
        }
        if 16 <= level {
            return Err(Refusal::ListTooDeep);
        }
        if 512 <= self.count {
            return Err(Refusal::ListTooMany);
        }
        if 32768 < self.total + 3 + len {
            return Err(Refusal::ListTooLarge);
        }
        Ok(())
    }

    // With that node.
    fn with(self, node: NodeSpot) -> ScanState
        requires { (SmallState self) × (node.level ≤ 131072) × (node.len ≤ 131072) }
        ensures { result ≡ scan_next self node }
    {
        let may = match node.kind {
            Kind::Cell => node.level,
            Kind::Row | Kind::Column => node.level + 1,
        };
        ScanState {
            count: self.count + 1,
            may,
            total: self.total + 3 + node.len,
        }
    }
}

// The node of a line, if it has one, after the nodes so far.
fn next_node(z: ScanState, line: &[u8]) -> Result<Option<NodeSpot>, Misread>
    requires { (SmallState z) × (length line.now ≤ 131072) }
    ensures { LineTold line.now (placed_line z (one_line_of line.now)) result }
{
    let Some(node) = read_line(line)? else {
        return Ok(None);
    };
    match z.place(node.level, node.len) {
        Ok(()) => Ok(Some(node)),
        Err(refusal) => Err(Misread {
            refusal,
            column: 2 * node.level + 1,
        }),
    }
}

// A node of the line that begins at `from`.
fn spot_in(node: NodeSpot, from: usize) -> NodeSpot
    requires { (from ≤ 131072) × (node.start ≤ 131072) × (node.end ≤ 131072) }
    ensures { result ≡ moved node from }
{
    NodeSpot {
        start: from + node.start,
        end: from + node.end,
        ..node
    }
}

// Line by line, each after the nodes of those before it; the nodes go to the front of `spots`.
pub fn scan(text: &[u8], spots: &mut [NodeSpot; 512]) -> Result<ScanState, ListFault>
    requires { length text.now ≤ 131072 }
    ensures { ScanTold text.now (scan_lines text.now) spots.new result }
{
    let mut z = ScanState {
        count: 0,
        may: 0,
        total: 0,
    };
    let mut line = 0;
    let mut from = 0;
    while from <= text.len() {
        let end = next_feed(text, from);
        line += 1;
        let next = next_node(z, &text[from..end]).map_err(|f| ListFault {
            refusal: f.refusal,
            line,
            column: f.column,
        })?;
        if let Some(node) = next {
            spots[z.count] = spot_in(node, from);
            z = z.with(node);
        }
        from = end + 1;
    }
    if z.count == 0 {
        return Err(ListFault {
            refusal: Refusal::ListEmpty,
            line,
            column: 1,
        });
    }
    Ok(z)
}
