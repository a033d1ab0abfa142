// The text of a Cell as it is typed: `\n` is a line feed, `\\` a backslash, every other byte hex 20 to 7E itself.
ghost use Rattle.std.specs.Prelude.{◌≡◌, List, ℕ, ◌+◌, ◌≤◌, length, IfOk, IfErr};
ghost use Rattle.std.proofs.lemmas.List.Edits.{sets};
ghost use Rattle.typed.specs.Text.{byte_of, typed_text};
ghost use Rattle.typed.specs.Clauses.{put_of, Good, checked_text};

use common::refusal::Refusal;

// What is wrong, and in which column, counted from 1: of a text or of a line.
#[derive(Clone, Copy)]
pub struct Misread {
    pub refusal: Refusal,
    pub column: usize,
}

// The byte that `b` puts into the text, or none where it starts an escape; `escaped`: the byte before it did.
#[tactic(auto, unfolding(crate::specs::Text::byte_of, common::specs::Refusals::refusal_of))]
fn byte_of(escaped: bool, b: u8) -> Result<Option<u8>, Refusal>
    ensures { result ≡ put_of (byte_of escaped b) }
{
    match (escaped, b) {
        (true, b'n') => Ok(Some(b'\n')),
        (true, b'\\') => Ok(Some(b'\\')),
        (true, _) => Err(Refusal::BadEscape),
        (false, b'\\') => Ok(None),
        (false, b' '..=b'~') => Ok(Some(b)),
        (false, _) => Err(Refusal::BadCharacter),
    }
}

// The length of the text, or its first fault.
pub fn check_text(raw: &[u8]) -> Result<usize, Misread>
    requires { length raw.now ≤ 131072 }
    ensures value { result ≡ checked_text (typed_text raw.now) }
    ensures within { IfOk result (λ n. n ≤ length raw.now) }
    ensures column { IfErr result (λ f. f.column ≤ length raw.now + 1) }
{
    let mut escaped = false;
    let mut n = 0;
    for (i, &b) in raw.iter().enumerate() {
        let put = byte_of(escaped, b).map_err(|refusal| Misread {
            refusal,
            column: i + 1,
        })?;
        escaped = put.is_none();
        n += usize::from(put.is_some());
    }
    if escaped {
        return Err(Misread {
            refusal: Refusal::BadEscape,
            column: raw.len() + 1,
        });
    }
    Ok(n)
}

// Writes a text that was checked at `at`.
pub fn write_text(raw: &[u8], out: &mut [u8], at: usize)
    requires { Good raw.now at (length out.old) }
    ensures { (t : List ℕ) → typed_text raw.now ≡ Rattle.typed.specs.Text.Text.text t
        → out.new ≡ sets out.old at t }
{
    let mut escaped = false;
    let mut p = at;
    for &b in raw {
        match byte_of(escaped, b) {
            Ok(Some(c)) => {
                out[p] = c;
                escaped = false;
                p += 1;
            }
            Ok(None) => escaped = true,
            // none in a text that was checked
            Err(_) => {}
        }
    }
}
