// The bytes of the nodes, written from the last to the first.
ghost use Rattle.std.specs.Prelude.{◌≡◌, List, length};
ghost use Rattle.std.proofs.lemmas.List.Edits.{sets};
ghost use Rattle.typed.specs.Scan.{TypedNode};
ghost use Rattle.typed.specs.Clauses.{flat_of, ReadyNodes, SomeReady};

use super::line::NodeSpot;
use super::typed_text::write_text;
use tree::front::put_front;

// `sizes` has for each level the bytes of the elements there that are written and whose parent is not yet.
pub fn write_spots(text: &[u8], spots: &[NodeSpot], total: usize, out: &mut [u8])
    requires { SomeReady text.now spots.now total (length out.old) }
    ensures { (ns : List TypedNode) → ReadyNodes text.now spots.now total (length out.old) ns
        → out.new ≡ sets out.old 0 (flat_of ns) }
{
    let mut sizes = [0usize; 17];
    let mut p = total;
    for i in (0..spots.len()).rev() {
        let s = spots[i];
        let inside = s.len + sizes[s.level + 1];
        p -= 3 + s.len;
        put_front(out, p, s.kind.tag(), inside);
        write_text(&text[s.start..s.end], out, p + 3);
        sizes[s.level] += 3 + inside;
        sizes[s.level + 1] = 0;
    }
}
