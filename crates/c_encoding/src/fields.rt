// Settings, margins, sizes and leaf records as lent numbers.
ghost use Rattle.std.specs.Prelude.{◌≡◌, ◌*◌, ◌≤◌, ◌<◌, ◌∷◌, [], length};
ghost use Rattle.std.proofs.lemmas.List.Edits.{sets};
ghost use Rattle.settings.specs.Promises.{Ranges};
ghost use Rattle.settings.specs.Defaults.{alignment_number, priority_number};
ghost use Rattle.c_encoding.specs.Numbers.{settings_numbers, margin_numbers, front_numbers, record_numbers};
ghost use Rattle.c_encoding.specs.Clauses.{choice_numbers, fives, SmallRecord};
ghost use Rattle.c_encoding.specs.Folds.{found_numbers};
ghost use Rattle.c_encoding.specs.Places.{place_numbers};
ghost use Rattle.c_encoding.specs.Plans.{ends_numbers};

use crate::lists;
use crate::lists::widen_bytes;
use block::Flags;
use common::copy::copy;
use fold::Folded;
use leaf::LeafRecord;
use places::LeafPlace;
use plan::Planned;
use settings::{Alignment, Priority, Settings};
use sizes::Size;
use splits::cut::CutPair;

fn number_of_priority(p: Priority) -> u16
    ensures { result ≡ priority_number p }
{
    match p {
        Priority::First => 0,
        Priority::Last => 1,
        Priority::List => 2,
    }
}

fn number_of_alignment(a: Alignment) -> u16
    ensures { result ≡ alignment_number a }
{
    match a {
        Alignment::Start => 0,
        Alignment::Center => 1,
        Alignment::End => 2,
    }
}

// Left, right, top, bottom.
fn padding(s: Settings) -> [u16; 4]
    requires { Ranges s }
    ensures { result ≡ s.left ∷ s.right ∷ s.top ∷ s.bottom ∷ [] }
{
    [s.left as u16, s.right as u16, s.top as u16, s.bottom as u16]
}

// Two alignments, the line mode, two priorities.
fn choices(s: Settings) -> [u16; 5]
    ensures { result ≡ choice_numbers s }
{
    [
        number_of_alignment(s.horizontal),
        number_of_alignment(s.vertical),
        lists::bit(s.line_mode),
        number_of_priority(s.width_priority),
        number_of_priority(s.height_priority),
    ]
}

// The 28 numbers of the settings record.
pub fn put_settings(s: Settings, out: &mut [u16])
    requires { Ranges s × (28 ≤ length out.old) }
    ensures { out.new ≡ sets out.old 0 (settings_numbers s) }
{
    widen_bytes(out, 0, &s.marks);
    copy(out, 15, &padding(s));
    widen_bytes(out, 19, &s.fills);
    copy(out, 23, &choices(s));
}

// Four sizes, four fills.
pub fn put_margin(s: Settings, out: &mut [u16])
    requires { 8 ≤ length out.old }
    ensures { out.new ≡ sets out.old 0 (margin_numbers s) }
{
    let m = s.margin;
    let sizes = [m.left, m.right, m.top, m.bottom];
    widen_bytes(out, 0, &sizes);
    // A local: read in the struct, it takes more instructions.
    let fills = m.fills;
    widen_bytes(out, 4, &fills);
}

// Five numbers for each node: its sizes in the list, and its count of nodes below.
pub fn put_sizes(list: &[u16; 2048], n: usize, below: [u16; 512], out: &mut [u16])
    requires { (n ≤ 512) × (5 * n ≤ length out.old) }
    ensures { out.new ≡ sets out.old 0 (fives n list.now below) }
{
    for i in 0..n {
        let five = [
            list[4 * i],
            list[4 * i + 1],
            list[4 * i + 2],
            list[4 * i + 3],
            below[i],
        ];
        copy(out, 5 * i, &five);
    }
}

// Node, width, height, eight flags, the pair of the leaf's cut.
fn front(node: usize, size: Size, f: Flags, pair: CutPair) -> [u16; 13]
    requires { (node < 65536) × (size.width < 65536) × (size.height < 65536) × (pair.taken < 65536) }
    ensures { result ≡ front_numbers node size f pair }
{
    [
        node as u16,
        size.width as u16,
        size.height as u16,
        lists::bit(f.first_row),
        lists::bit(f.last_row),
        lists::bit(f.first_col),
        lists::bit(f.last_col),
        lists::bit(f.no_right),
        lists::bit(f.lean_top),
        lists::bit(f.top_left),
        lists::bit(f.top_intersection),
        pair.taken as u16,
        pair.rest,
    ]
}

// The front, the horizontal list, the vertical list.
pub fn put_record(r: LeafRecord, out: &mut [u16])
    requires { SmallRecord r × (1039 ≤ length out.old) }
    ensures { out.new ≡ sets out.old 0 (record_numbers r) }
{
    copy(out, 0, &front(r.node, r.size, r.flags, r.pair));
    lists::put_list(r.horizontal, out, 13);
    lists::put_list(r.vertical, out, 526);
}

// Node, line, column.
pub fn put_place(p: LeafPlace, out: &mut [u16])
    requires { (p.node < 65536) × (p.line < 65536) × (p.column < 65536) × (3 ≤ length out.old) }
    ensures { out.new ≡ sets out.old 0 (place_numbers p) }
{
    copy(out, 0, &[p.node as u16, p.line as u16, p.column as u16]);
}

// The height, the tries and the greatest excess height of a fold.
pub fn put_found(r: Folded, out: &mut [u64])
    requires { length out.old ≡ 3 }
    ensures { out.new ≡ found_numbers r }
{
    out[0] = r.height as u64;
    out[1] = r.tries as u64;
    out[2] = r.miss as u64;
}

// Least W, greatest W, least H, greatest H.
pub fn put_ends(r: Planned, out: &mut [u32])
    requires { length out.old ≡ 4 }
    ensures { out.new ≡ ends_numbers r }
{
    out[0] = r.least_width;
    out[1] = r.greatest_width;
    out[2] = r.least_height;
    out[3] = r.greatest_height;
}
