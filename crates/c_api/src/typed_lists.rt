// The call that reads a typed list.
ghost use Rattle.std.specs.Prelude.{◌≡◌};
ghost use Rattle.c_encoding.specs.Words.{typed_word};
ghost use Rattle.typed.specs.Typed.{typed_of};

use c_encoding::pack_typed;

#[unsafe(no_mangle)]
pub extern "C" fn leg_read_typed(text: &[u8], out: &mut [u8]) -> u64
    ensures value { result ≡ typed_word (typed_of text.now out.old).answer }
    ensures written { out.new ≡ (typed_of text.now out.old).memory }
{
    let t = typed::read_typed(text, out);
    pack_typed(t)
}
