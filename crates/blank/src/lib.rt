// The texts of a tree's Cells blanked by dots (document 02, 14: the question paper).
#![tactic(auto)]

ghost use Rattle.std.specs.Prelude.{◌≡◌};
ghost use Rattle.blank.specs.Blank.{blank_of};
ghost use Rattle.blank.specs.Paper.{PaperOf};

use common::refusal::Refusal;

pub mod elements;
pub mod names;

// The number, and the bytes written.
#[derive(Clone, Copy)]
pub struct Blanked {
    pub number: u8,
    pub count: usize,
}

fn refuse(n: u8) -> Blanked
    ensures { result ≡ record { number = n; count = 0 } }
{
    Blanked {
        number: n,
        count: 0,
    }
}

// Writes to the front of `out` the tree with the texts of the Cells that `nodes` names blanked, or of all Cells where it names none.
pub fn blank_texts(tree: &[u8], nodes: &[u16], out: &mut [u8]) -> Blanked
    ensures value { result ≡ (blank_of tree.now nodes.now out.old).answer }
    ensures written { out.new ≡ (blank_of tree.now nodes.now out.old).memory }
    ensures paper { result.number ≡ 0 → PaperOf tree.now nodes.now (record { answer = result; memory = out.new }) }
{
    let number = tree::read_tree(tree).number;
    if number != 0 {
        return refuse(number);
    }
    let cells = elements::find_cells(tree);
    let named = names::name_cells(nodes, &cells);
    // Behind a reference, so that the array is not copied.
    let dots = match &named {
        Ok(dots) => dots,
        Err(refusal) => return refuse(refusal.number()),
    };
    if out.len() < tree.len() {
        return refuse(Refusal::TooShort.number());
    }
    elements::put_elements(tree, dots, out);
    Blanked {
        number: 0,
        count: tree.len(),
    }
}
