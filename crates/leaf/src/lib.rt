// The leaf record and the leaf printer.
#![tactic(auto)]

ghost use Rattle.std.specs.Prelude.{◌≡◌, ◌≤◌, length};
ghost use Rattle.sizes.specs.Input.{input_of};
ghost use Rattle.text.specs.Text.{join_lines};
ghost use Rattle.block.specs.Block as blocks;
ghost use Rattle.layout.specs.Walk.{leaf_of};
ghost use Rattle.frame.specs.Printer.{print_to};
ghost use Rattle.leaf.specs.Answers.{no_leaf_record, placed_record, leaf_record_of, leaf_print_of};
ghost use Rattle.leaf.specs.Clauses.{ShowsLeaf, Seeks};

use block::Flags;
use common::refusal::Refusal;
use entries::entry::{BASE, FRONT, entry_at};
use entries::{find_leaf, paint_leaves};
use frame::Written;
use settings::Settings;
use sizes::Size;
use sizes::axis::separator;
use sizes::lists::{allotted_at, natural_at};
use splits::SplitList;
use splits::cut::CutPair;
use splits::lent::list_at;

// A leaf's record: node, allotted size, both split lists as the leaf gets them, eight flags, the pair of the cut that its parent made for it; or a refusal with
// 0 or no elsewhere.
#[derive(Clone, Copy)]
pub struct LeafRecord {
    pub number: u8,
    pub node: usize,
    pub size: Size,
    pub horizontal: SplitList,
    pub vertical: SplitList,
    pub flags: Flags,
    pub pair: CutPair,
}

fn no_record(number: u8) -> LeafRecord
    ensures { result ≡ no_leaf_record number }
{
    LeafRecord {
        number,
        node: 0,
        size: Size {
            width: 0,
            height: 0,
        },
        horizontal: splits::no_pieces(),
        vertical: splits::no_pieces(),
        flags: block::no_flags(),
        pair: CutPair { taken: 0, rest: 0 },
    }
}

// The record of the leaf whose entry is at the front of `leaf`.
fn record_at(tree: &[u8], list: &[u16], leaf: &[u16], s: Settings) -> LeafRecord
    requires { ShowsLeaf tree.now list.now leaf.now s }
    ensures { (q : ShowsLeaf tree.now list.now leaf.now s) → result ≡ placed_record q.leaf }
{
    let e = entry_at(leaf);
    let node = e.spot.node;
    LeafRecord {
        number: 0,
        node,
        size: allotted_at(list, node),
        horizontal: list_at(leaf, FRONT, e.horizontal),
        vertical: list_at(leaf, FRONT + e.horizontal, e.vertical),
        flags: layout::flags_of(e.spot.flags),
        pair: e.pair,
    }
}

// A leaf that was sought: the settings, and where its entry begins.
#[derive(Clone, Copy)]
pub struct Sought {
    pub settings: Settings,
    pub entry: usize,
}

// The leaf with that number, or the number of a refusal: 1, 2 to 5, 6, 9. The sizes go to `list`, the entries of all leaves to `leaves`.
fn seek_leaf(
    settings: &[u8],
    tree: &[u8],
    node: usize,
    list: &mut [u16; 2048],
    leaves: &mut [u16],
) -> Result<Sought, u8>
    requires { 5120 ≤ length leaves.old }
    ensures seeks { Seeks (input_of settings.now tree.now) node tree.now result list.new leaves.new }
    ensures long { length list.new ≡ length list.old }
{
    let m = sizes::measure_tree(settings, tree, list);
    if m.number != 0 {
        return Err(m.number);
    }
    let s = m.settings;
    let f = frame::frame_of(s, natural_at(list, 0));
    if frame::is_large(f) {
        return Err(Refusal::TooLarge.number());
    }
    let n = walk::walk_tree(tree, list, separator(s), f.stride, leaves);
    let found = find_leaf(&leaves[..n], node);
    if found.hit {
        Ok(Sought {
            settings: s,
            entry: found.entry,
        })
    } else {
        Err(Refusal::NoLeaf.number())
    }
}

// The record of the leaf with that number.
pub fn leaf_record(settings: &[u8], tree: &[u8], node: usize) -> LeafRecord
    ensures { result ≡ leaf_record_of (input_of settings.now tree.now) node }
{
    let mut list = [0u16; 2048];
    let mut leaves = [0u16; 5120];
    match seek_leaf(settings, tree, node, &mut list, &mut leaves) {
        Ok(leaf) => record_at(tree, &list, &leaves[leaf.entry..], leaf.settings),
        Err(number) => no_record(number),
    }
}

// The block of the leaf whose entry is at the front of `leaf`, its lines joined by 0A, at the start of the output; or 8. It is painted as the only leaf of a
// sheet would be: its first byte is the output's.
fn print_block(tree: &[u8], list: &[u16], leaf: &mut [u16], s: Settings, out: &mut [u8]) -> Written
    requires { ShowsLeaf tree.now list.now leaf.old s }
    ensures { (q : ShowsLeaf tree.now list.now leaf.old s)
        → (result ≡ (print_to (join_lines (blocks.block s (leaf_of q.leaf))) out.old).answer)
        × (out.new ≡ (print_to (join_lines (blocks.block s (leaf_of q.leaf))) out.old).memory) }
{
    let e = entry_at(leaf);
    let end = FRONT + e.horizontal + e.vertical;
    let size = allotted_at(list, e.spot.node);
    let flags = layout::flags_of(e.spot.flags);
    let width = block::block_width(s, size, flags);
    let stride = width + 1;
    let height = block::block_height(s, size, flags);
    let n = (height * stride).saturating_sub(1);
    if out.len() < n {
        return frame::refused(8);
    }
    paint::bytes::end_lines(out, width, height);
    leaf[BASE] = 0;
    paint_leaves(tree, list, &leaf[..end], s, stride, out);
    Written {
        number: 0,
        count: n,
    }
}

// The block of the leaf with that number, its lines joined by 0A, at the start of the output.
pub fn print_leaf(settings: &[u8], tree: &[u8], node: usize, out: &mut [u8]) -> Written
    ensures value { result ≡ (leaf_print_of (input_of settings.now tree.now) node out.old).answer }
    ensures shown { out.new ≡ (leaf_print_of (input_of settings.now tree.now) node out.old).memory }
{
    let mut list = [0u16; 2048];
    let mut leaves = [0u16; 5120];
    match seek_leaf(settings, tree, node, &mut list, &mut leaves) {
        Ok(leaf) => print_block(tree, &list, &mut leaves[leaf.entry..], leaf.settings, out),
        Err(number) => frame::refused(number),
    }
}
