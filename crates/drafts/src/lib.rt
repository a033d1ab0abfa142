// Drafts of trees in one lent store: fields of hex tag 20 to 27 for the names A to H, two-byte length and the tree's bytes, then zero bytes.
#![tactic(auto)]

ghost use Rattle.std.specs.Prelude.{◌≡◌};
ghost use Rattle.common.specs.Refusals.{answer_number};
ghost use Rattle.drafts.specs.Store.{is_name, tag_for, fields_of, save_of, forget_of, return_of};
ghost use Rattle.drafts.specs.Clauses.{opened_of, returned_as};

use common::copy::copy;
use common::refusal::Refusal;

pub mod moves;
pub mod scan;

// The number, and the tree's length.
#[derive(Clone, Copy)]
pub struct Returned {
    pub number: u8,
    pub count: usize,
}

fn is_name(n: u8) -> bool
    ensures { result ≡ is_name n }
{
    b'A' <= n && n <= b'H'
}

fn tag_of(n: u8) -> u8
    ensures { result ≡ tag_for n }
{
    n.saturating_sub(33)
}

// The store scanned for the field of that name.
fn open_store(store: &[u8], name: u8) -> Result<scan::Scan, Refusal>
    ensures { result ≡ opened_of name (fields_of store.now) }
{
    let scan = scan::scan_store(store, tag_of(name)).ok_or(Refusal::BadStore)?;
    if is_name(name) {
        Ok(scan)
    } else {
        Err(Refusal::NoDraft)
    }
}

fn copy_draft(store: &[u8], name: u8, out: &mut [u8]) -> Result<usize, Refusal>
    ensures value { returned_as result ≡ (return_of store.now name out.old).answer }
    ensures copied { out.new ≡ (return_of store.now name out.old).memory }
{
    let scan = open_store(store, name)?;
    let field = scan.spot.ok_or(Refusal::NoDraft)?;
    let tree = &store[field.at + 3..field.at + field.size];
    if out.len() < tree.len() {
        return Err(Refusal::TooShort);
    }
    copy(out, 0, tree);
    Ok(tree.len())
}

// The draft of that name is copied to the front of `out`.
pub fn return_draft(store: &[u8], name: u8, out: &mut [u8]) -> Returned
    ensures value { result ≡ (return_of store.now name out.old).answer }
    ensures copied { out.new ≡ (return_of store.now name out.old).memory }
{
    match copy_draft(store, name, out) {
        Ok(count) => Returned { number: 0, count },
        Err(refusal) => Returned {
            number: refusal.number(),
            count: 0,
        },
    }
}

fn drop_draft(store: &mut [u8], name: u8) -> Result<(), Refusal>
    ensures value { answer_number result ≡ (forget_of store.old name).answer }
    ensures left { store.new ≡ (forget_of store.old name).memory }
{
    let scan = open_store(store, name)?;
    let field = scan.spot.ok_or(Refusal::NoDraft)?;
    moves::take_out(store, field, scan.used);
    Ok(())
}

// The draft of that name is taken out; the fields after it move down.
pub fn forget_draft(store: &mut [u8], name: u8) -> u8
    ensures value { result ≡ (forget_of store.old name).answer }
    ensures left { store.new ≡ (forget_of store.old name).memory }
{
    match drop_draft(store, name) {
        Ok(()) => 0,
        Err(refusal) => refusal.number(),
    }
}

// An older draft of that name is dropped, and the tree is put last.
pub fn save_draft(store: &mut [u8], name: u8, tree: &[u8]) -> u8
    ensures value { result ≡ (save_of store.old name tree.now).answer }
    ensures left { store.new ≡ (save_of store.old name tree.now).memory }
{
    let scan = match open_store(store, name) {
        Ok(scan) => scan,
        Err(refusal) => return refusal.number(),
    };
    let fault = tree::read_tree(tree).number;
    if fault != 0 {
        return fault;
    }
    let others = scan.used - scan.spot.map_or(0, |older| older.size);
    if store.len() < others + (3 + tree.len()) {
        return Refusal::NoRoom.number();
    }
    if let Some(older) = scan.spot {
        moves::take_out(store, older, scan.used);
    }
    moves::put_field(store, others, tag_of(name), tree);
    0
}
