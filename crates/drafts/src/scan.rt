// Scans a store: whether its fields are of the right form, how many bytes they take, and where the field of a tag is.
ghost use Rattle.std.specs.Prelude.{◌≡◌, ◌≤◌, length, IfSome};
ghost use Rattle.drafts.specs.Store.{is_tag, all_zero, fields_of};
ghost use Rattle.drafts.specs.Clauses.{field_size, scan_of};

// Where a field is, its tag and length included.
#[derive(Clone, Copy)]
pub struct FieldAt {
    pub at: usize,
    pub size: usize,
}

// The bytes that the fields of a store take, and the field looked for.
#[derive(Clone, Copy)]
pub struct Scan {
    pub used: usize,
    pub spot: Option<FieldAt>,
}

fn is_tag(b: u8) -> bool
    ensures { result ≡ is_tag b }
{
    32 <= b && b < 40
}

fn all_zero(s: &[u8]) -> bool
    ensures { result ≡ all_zero s.now }
{
    // By `iter().all` a jump of this loop crosses a 32-byte boundary at every second place in memory: up to 1.6 of the time.
    for b in s {
        if *b != 0 {
            return false;
        }
    }
    true
}

// The bytes of the field at the front of `s`.
fn field_size(s: &[u8]) -> Option<usize>
    ensures value { result ≡ field_size s.now }
    ensures fits { IfSome result (λ n. n ≤ length s.now) }
{
    if s.len() < 3 || !is_tag(s[0]) {
        return None;
    }
    let n = 3 + tree::front::length_at(s);
    (n <= s.len()).then_some(n)
}

pub fn scan_store(s: &[u8], tag: u8) -> Option<Scan>
    ensures { result ≡ scan_of tag (fields_of s.now) }
{
    let mut seen = [false; 8];
    let mut spot = None;
    let mut i = 0;
    while i < s.len() && s[i] != 0 {
        let b = s[i];
        let size = field_size(&s[i..])?;
        let k = usize::from(b) - 32;
        if seen[k] {
            return None;
        }
        seen[k] = true;
        if b == tag {
            spot = Some(FieldAt { at: i, size });
        }
        i += size;
    }
    // After the loop, since inside it an address is added up anew for each byte.
    all_zero(&s[i..]).then_some(Scan { used: i, spot })
}
