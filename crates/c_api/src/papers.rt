// The call that makes a question paper of a key.
ghost use Rattle.std.specs.Prelude.{◌≡◌};
ghost use Rattle.c_encoding.specs.Words.{packed};
ghost use Rattle.blank.specs.Blank.{blank_of};

use c_encoding::pack;

#[unsafe(no_mangle)]
pub extern "C" fn leg_blank(tree: &[u8], nodes: &[u16], out: &mut [u8]) -> u64
    ensures value { result ≡ packed (blank_of tree.now nodes.now out.old).answer.number (blank_of tree.now
        nodes.now out.old).answer.count }
    ensures written { out.new ≡ (blank_of tree.now nodes.now out.old).memory }
{
    let r = blank::blank_texts(tree, nodes, out);
    pack(r.number, r.count)
}
