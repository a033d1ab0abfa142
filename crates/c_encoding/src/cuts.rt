// Cuts as lent numbers.
ghost use Rattle.std.specs.Prelude.{◌≡◌, ◌≤◌, length, take};
ghost use Rattle.std.proofs.lemmas.List.Edits.{sets};
ghost use Rattle.c_encoding.specs.Numbers.{overwritten};
ghost use Rattle.c_encoding.specs.Cuts.{refused_by, cut_numbers, kept_numbers};

use crate::lists;
use common::copy::copy;
use splits::{CutParts, InPlaceCut, SplitList};

// The number of a cut: 8 where a lent list is too short, then 10 where the count is over 512, else 0.
pub fn refused_by(held: usize, count: usize, room: usize, needed: usize) -> u8
    ensures { result ≡ refused_by held count room needed }
{
    if held < count || room < needed {
        8
    } else if 512 < count {
        10
    } else {
        0
    }
}

// Yes or no, the pair, the list taken, the list left.
pub fn put_cut(cut: CutParts, out: &mut [u16])
    requires { (cut.pair.taken ≤ 512) × (cut.taken.count ≤ 512) × (cut.left.count ≤ 512) × (1029 ≤ length out.old) }
    ensures { out.new ≡ sets out.old 0 (cut_numbers cut) }
{
    let first = [lists::bit(cut.split), cut.pair.taken as u16, cut.pair.rest];
    copy(out, 0, &first);
    lists::put_list(cut.taken, out, 3);
    lists::put_list(cut.left, out, 516);
}

// Yes or no, the pair, the count left, the list taken.
pub fn put_kept(kept: InPlaceCut, out: &mut [u16])
    requires { (kept.answer.pair.taken ≤ 512) × (kept.list.count ≤ 512) × (kept.answer.taken.count ≤ 512) × (517 ≤ length out.old) }
    ensures { out.new ≡ sets out.old 0 (kept_numbers kept) }
{
    // Locals, here and in `put_left`: read in the struct, they take a tenth more instructions.
    let answer = kept.answer;
    let left = kept.list;
    let first = [
        lists::bit(answer.split),
        answer.pair.taken as u16,
        answer.pair.rest,
        left.count as u16,
    ];
    copy(out, 0, &first);
    let taken = answer.taken;
    lists::put_list(taken, out, 4);
}

// The list left, written over the lent one as far as that is long enough.
pub fn put_left(left: SplitList, out: &mut [u16])
    ensures { out.new ≡ overwritten (take (length out.old) left.pieces) out.old }
{
    let pieces = left.pieces;
    let n = out.len().min(512);
    copy(out, 0, &pieces[..n]);
}
