// The public calls as C functions on bytes and numbers; include/leg_sheet.h says what each takes and gives.
// None of them requires anything of the caller beyond what a C slice is: a pointer to as many items as its length says.
#![tactic(auto)]

pub mod papers;
pub mod stores;
pub mod typed_lists;

ghost use Rattle.std.specs.Prelude.{◌≡◌};
ghost use Rattle.c_encoding.specs.Words.{packed, part_after};
ghost use Rattle.c_encoding.specs.Numbers.{settings_given, margin_given, sizes_given, record_given};
ghost use Rattle.c_encoding.specs.Places.{place_given, read_after};
ghost use Rattle.c_encoding.specs.Folds.{found_after};
ghost use Rattle.c_encoding.specs.Plans.{ends_word, ends_after};
ghost use Rattle.c_encoding.specs.Cuts.{splits3_given, lent_given, splits_given};
ghost use Rattle.settings.specs.Reading.{priority_of, read_settings};
ghost use Rattle.sharing.specs.Sharing.{share_of};
ghost use Rattle.tree.specs.Reading.{tree_answer, read_tree};
ghost use Rattle.sizes.specs.Input.{input_of};
ghost use Rattle.leaf.specs.Answers.{leaf_record_of, leaf_print_of};
ghost use Rattle.sheet.specs.Answers.{sheet_of};
ghost use Rattle.places.specs.Places.{leaf_place_of};
ghost use Rattle.places.specs.Together.{finds_of};
ghost use Rattle.fold.specs.Answers.{fold_of};
ghost use Rattle.plan.specs.Answers.{plan_input, planned_of};
ghost use Rattle.widen.specs.Answers.{nearest_of};

use c_encoding::{cuts, fields, lists, pack};
use collector::below::count_below;
use splits::lent::list_at;

#[unsafe(no_mangle)]
pub extern "C" fn leg_read_settings(bytes: &[u8], out: &mut [u16]) -> u64
    ensures value { result ≡ (settings_given (read_settings bytes.now) out.old).answer }
    ensures shown { out.new ≡ (settings_given (read_settings bytes.now) out.old).memory }
{
    let read = settings::read_settings(bytes);
    if read.number != 0 {
        return pack(read.number, 0);
    }
    if out.len() < 28 {
        return pack(8, 0);
    }
    let s = read.settings;
    fields::put_settings(s, out);
    pack(0, 28)
}

#[unsafe(no_mangle)]
pub extern "C" fn leg_read_margin(bytes: &[u8], out: &mut [u16]) -> u64
    ensures value { result ≡ (margin_given (read_settings bytes.now) out.old).answer }
    ensures shown { out.new ≡ (margin_given (read_settings bytes.now) out.old).memory }
{
    let taken = settings::read_settings(bytes);
    if taken.number != 0 {
        return pack(taken.number, 0);
    }
    if out.len() < 8 {
        return pack(8, 0);
    }
    let s = taken.settings;
    fields::put_margin(s, out);
    pack(0, 8)
}

#[unsafe(no_mangle)]
pub extern "C" fn leg_read_tree(tree: &[u8]) -> u64
    ensures { result ≡ packed (tree_answer (read_tree tree.now)).number (tree_answer (read_tree tree.now)).nodes }
{
    let t = tree::read_tree(tree);
    pack(t.number, t.nodes)
}

#[unsafe(no_mangle)]
pub extern "C" fn leg_sizes(settings: &[u8], tree: &[u8], list: &mut [u16]) -> u64
    ensures value { result ≡ (sizes_given (input_of settings.now tree.now) list.old).answer }
    ensures shown { list.new ≡ (sizes_given (input_of settings.now tree.now) list.old).memory }
{
    let mut four = [0u16; 2048];
    let m = sizes::measure_tree(settings, tree, &mut four);
    if m.number != 0 {
        return pack(m.number, 0);
    }
    if list.len() / 5 < m.count {
        return pack(8, 0);
    }
    let below = count_below(tree);
    fields::put_sizes(&four, m.count, below, list);
    pack(0, m.count)
}

#[unsafe(no_mangle)]
pub extern "C" fn leg_leaf_record(settings: &[u8], tree: &[u8], node: usize, out: &mut [u16]) -> u64
    ensures value { result ≡ (record_given (leaf_record_of (input_of settings.now tree.now) node) out.old).answer }
    ensures shown { out.new ≡ (record_given (leaf_record_of (input_of settings.now tree.now) node) out.old).memory }
{
    let r = leaf::leaf_record(settings, tree, node);
    if r.number != 0 {
        return pack(r.number, 0);
    }
    if out.len() < 1039 {
        return pack(8, 0);
    }
    fields::put_record(r, out);
    pack(0, 1039)
}

#[unsafe(no_mangle)]
pub extern "C" fn leg_print_leaf(settings: &[u8], tree: &[u8], node: usize, out: &mut [u8]) -> u64
    ensures value { result ≡ packed (leaf_print_of (input_of settings.now tree.now) node out.old).answer.number (leaf_print_of
        (input_of settings.now tree.now) node out.old).answer.count }
    ensures shown { out.new ≡ (leaf_print_of (input_of settings.now tree.now) node out.old).memory }
{
    let w = leaf::print_leaf(settings, tree, node, out);
    pack(w.number, w.count)
}

#[unsafe(no_mangle)]
pub extern "C" fn leg_print_sheet(settings: &[u8], tree: &[u8], out: &mut [u8]) -> u64
    ensures value { result ≡ packed (sheet_of (input_of settings.now tree.now) out.old).answer.number (sheet_of
        (input_of settings.now tree.now) out.old).answer.count }
    ensures shown { out.new ≡ (sheet_of (input_of settings.now tree.now) out.old).memory }
{
    let w = sheet::print_sheet(settings, tree, out);
    pack(w.number, w.count)
}

#[unsafe(no_mangle)]
pub extern "C" fn leg_place(
    settings: &[u8],
    tree: &[u8],
    line: usize,
    column: usize,
    out: &mut [u16],
) -> u64
    ensures value { result ≡ (place_given (leaf_place_of (input_of settings.now tree.now) line column) out.old).answer }
    ensures shown { out.new ≡ (place_given (leaf_place_of (input_of settings.now tree.now) line column) out.old).memory }
{
    let p = places::leaf_at(settings, tree, line, column);
    if p.number != 0 {
        return pack(p.number, 0);
    }
    if out.len() < 3 {
        return pack(8, 0);
    }
    fields::put_place(p, out);
    pack(0, 3)
}

#[unsafe(no_mangle)]
pub extern "C" fn leg_places(
    settings: &[u8],
    tree: &[u8],
    places: &[u64],
    answers: &mut [u64],
    read: &mut u64,
) -> u64
    ensures value { result ≡ packed (finds_of (input_of settings.now tree.now) places.now
        answers.old).answer.number (finds_of (input_of settings.now tree.now) places.now
        answers.old).answer.count }
    ensures listed { answers.new ≡ (finds_of (input_of settings.now tree.now) places.now answers.old).memory }
    ensures told { read.new
        ≡ read_after (finds_of (input_of settings.now tree.now) places.now answers.old).answer read.old }
{
    let r = places::find_places(settings, tree, places, answers);
    if r.number != 0 {
        return pack(r.number, r.count);
    }
    *read = r.steps as u64;
    pack(r.number, r.count)
}

#[unsafe(no_mangle)]
pub extern "C" fn leg_fold(
    settings: &[u8],
    tree: &[u8],
    width: usize,
    budget: usize,
    columns: &mut [u16],
    found: &mut [u64; 3],
) -> u64
    ensures value { result ≡ packed (fold_of (input_of settings.now tree.now) width budget columns.old).answer.number (fold_of
        (input_of settings.now tree.now) width budget columns.old).answer.columns }
    ensures listed { columns.new ≡ (fold_of (input_of settings.now tree.now) width budget columns.old).memory }
    ensures told { found.new
        ≡ found_after (fold_of (input_of settings.now tree.now) width budget columns.old).answer found.old }
{
    let r = fold::fold_list(settings, tree, width, budget, columns);
    if r.number != 0 {
        return pack(r.number, r.columns);
    }
    fields::put_found(r, found);
    pack(r.number, r.columns)
}

#[unsafe(no_mangle)]
pub extern "C" fn leg_plan(settings: &[u8], tree: &[u8], ends: &mut [u32; 4]) -> u64
    ensures value { result ≡ ends_word (planned_of (plan_input settings.now tree.now)) }
    ensures told { ends.new ≡ ends_after (planned_of (plan_input settings.now tree.now)) ends.old }
{
    let p = plan::plan_sheet(settings, tree);
    if p.number != 0 {
        return pack(p.number, 0);
    }
    fields::put_ends(p, ends);
    pack(0, 4)
}

#[unsafe(no_mangle)]
pub extern "C" fn leg_widen(
    settings: &[u8],
    tree: &[u8],
    nodes: &mut [u16],
    letters: &mut [u32],
) -> u64
    ensures value { result ≡ packed (nearest_of (input_of settings.now tree.now) nodes.old
        letters.old).answer.number (nearest_of (input_of settings.now tree.now) nodes.old
        letters.old).answer.count }
    ensures nodes { nodes.new ≡ (nearest_of (input_of settings.now tree.now) nodes.old letters.old).memory.0 }
    ensures letters { letters.new ≡ (nearest_of (input_of settings.now tree.now) nodes.old letters.old).memory.1 }
{
    let r = widen::nearest_cells(settings, tree, nodes, letters);
    pack(r.number, r.count)
}

#[unsafe(no_mangle)]
pub extern "C" fn leg_short_splits3(pieces: &[u16], count: usize, w: u16, out: &mut [u16]) -> u64
    ensures value { result ≡ (splits3_given pieces.now count w out.old).answer }
    ensures shown { out.new ≡ (splits3_given pieces.now count w out.old).memory }
{
    let number = cuts::refused_by(pieces.len(), count, out.len(), 1029);
    if number != 0 {
        return pack(number, 0);
    }
    let list = list_at(pieces, 0, count);
    let cut = splits::short_splits3(list, w);
    cuts::put_cut(cut, out);
    pack(0, 1029)
}

#[unsafe(no_mangle)]
pub extern "C" fn leg_short_splits3_lent(
    pieces: &mut [u16],
    count: usize,
    w: u16,
    out: &mut [u16],
) -> u64
    ensures value { result ≡ (lent_given pieces.old count w out.old).answer }
    ensures left { pieces.new ≡ (lent_given pieces.old count w out.old).memory.0 }
    ensures shown { out.new ≡ (lent_given pieces.old count w out.old).memory.1 }
{
    let number = cuts::refused_by(pieces.len(), count, out.len(), 517);
    if number != 0 {
        return pack(number, 0);
    }
    let list = list_at(pieces, 0, count);
    let kept = splits::cut_here(list, w);
    let left = kept.list;
    cuts::put_left(left, pieces);
    cuts::put_kept(kept, out);
    pack(0, 517)
}

#[unsafe(no_mangle)]
pub extern "C" fn leg_short_splits(
    pieces: &[u16],
    count: usize,
    w: u16,
    positions: &mut [u32],
    left: &mut [u16],
) -> u64
    ensures value { result ≡ (splits_given pieces.now count w positions.old left.old).answer }
    ensures listed { positions.new ≡ (splits_given pieces.now count w positions.old left.old).memory.0 }
    ensures rest { left.new ≡ (splits_given pieces.now count w positions.old left.old).memory.1 }
{
    let room = positions.len().min(left.len());
    let number = cuts::refused_by(pieces.len(), count, room, 513);
    if number != 0 {
        return pack(number, 0);
    }
    let list = list_at(pieces, 0, count);
    let cut = splits::short_splits(list, w);
    let listed = cut.positions;
    lists::put_positions(listed, positions);
    let rest = cut.left;
    lists::put_list(rest, left, 0);
    pack(0, 513)
}

#[unsafe(no_mangle)]
pub extern "C" fn leg_share(
    spare: usize,
    n: usize,
    priority: u8,
    index: usize,
    part: &mut u64,
) -> u64
    ensures value { result ≡ packed (share_of spare n (priority_of priority) index).number 0 }
    ensures shown { part.new ≡ part_after spare n (priority_of priority) index part.old }
{
    let p = settings::priority_of(priority);
    let s = sharing::share(spare, n, p, index);
    if s.number != 0 {
        return pack(s.number, 0);
    }
    *part = s.part as u64;
    pack(0, 0)
}
