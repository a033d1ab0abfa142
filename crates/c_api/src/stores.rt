// The calls on a store of drafts.
ghost use Rattle.std.specs.Prelude.{◌≡◌};
ghost use Rattle.c_encoding.specs.Words.{packed};
ghost use Rattle.drafts.specs.Store.{save_of, forget_of, return_of};

use c_encoding::pack;

#[unsafe(no_mangle)]
pub extern "C" fn leg_save_draft(store: &mut [u8], name: u8, tree: &[u8]) -> u64
    ensures value { result ≡ packed (save_of store.old name tree.now).answer 0 }
    ensures kept { store.new ≡ (save_of store.old name tree.now).memory }
{
    pack(drafts::save_draft(store, name, tree), 0)
}

#[unsafe(no_mangle)]
pub extern "C" fn leg_forget_draft(store: &mut [u8], name: u8) -> u64
    ensures value { result ≡ packed (forget_of store.old name).answer 0 }
    ensures kept { store.new ≡ (forget_of store.old name).memory }
{
    pack(drafts::forget_draft(store, name), 0)
}

#[unsafe(no_mangle)]
pub extern "C" fn leg_return_draft(store: &[u8], name: u8, out: &mut [u8]) -> u64
    ensures value { result ≡ packed (return_of store.now name out.old).answer.number (return_of store.now name
        out.old).answer.count }
    ensures copied { out.new ≡ (return_of store.now name out.old).memory }
{
    let r = drafts::return_draft(store, name, out);
    pack(r.number, r.count)
}
