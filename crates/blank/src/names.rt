// The Cells that a list of node numbers names.
ghost use Rattle.std.specs.Prelude.{◌≡◌, ℕ, List};
ghost use Rattle.blank.specs.Clauses.{cell_marks, NamedAs};

use common::refusal::Refusal;

// Whether each node is blanked, where each number is that of a Cell; `cells` marks these. An empty list names all Cells.
pub fn name_cells(nodes: &[u16], cells: &[bool; 512]) -> Result<[bool; 512], Refusal>
    ensures { (cs : List ℕ) → cells.now ≡ cell_marks cs → NamedAs cs nodes.now result }
{
    let mut dots = [nodes.is_empty(); 512];
    for node in nodes {
        let n = usize::from(*node);
        if 512 <= n || !cells[n] {
            return Err(Refusal::NoLeaf);
        }
        dots[n] = true;
    }
    Ok(dots)
}
