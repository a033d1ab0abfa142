// Eight bytes as one 64-bit word, and the line feeds in it.
ghost use Rattle.std.specs.Prelude.{◌≡◌, ◌+◌, ◌≤◌, map, length, take, drop};
ghost use Rattle.text.specs.Feeds.{is_feed, feed_count};
ghost use Rattle.text.specs.Clauses.{Loaded, marked, flags};

// The eight bytes from `at` on as one word, the first byte lowest.
fn load(s: &[u8], at: usize) -> u64
    requires { at + 8 ≤ length s.now }
    ensures { Loaded (take 8 (drop at s.now)) result }
{
    u64::from_le_bytes(s[at..at + 8].try_into().unwrap())
}

// Hex 80 in each byte of the answer whose byte in `x` is a line feed, else 0. A byte of `y` is 0 where that of `x` is a line feed; where it
// is not, its seven low bits and 127 make 128 or more, or its high bit is set.
fn marks(x: u64) -> u64
    ensures { result ≡ marked 8 x }
{
    let y = x ^ 0x0a0a_0a0a_0a0a_0a0a;
    let t = (y & 0x7f7f_7f7f_7f7f_7f7f) + 0x7f7f_7f7f_7f7f_7f7f;
    ((t | y) & 0x8080_8080_8080_8080) ^ 0x8080_8080_8080_8080
}

// The line feeds among the eight bytes from `at` on, marked so.
pub fn feeds_at(s: &[u8], at: usize) -> u64
    requires { at + 8 ≤ length s.now }
    ensures { result ≡ flags (map is_feed (take 8 (drop at s.now))) }
{
    marks(load(s, at))
}

// 0 exactly where each of the eight bytes from `at` on is hex 0B to 8A: 0B is then taken from each without a borrow, and all high bits are clear. Of
// the bytes that a text may have, only the line feed is not.
pub fn hint_at(s: &[u8], at: usize) -> u64
    requires { at + 8 ≤ length s.now }
    ensures { result ≡ 0 → feed_count (take 8 (drop at s.now)) ≡ 0 }
{
    load(s, at).wrapping_sub(0x0b0b_0b0b_0b0b_0b0b) & 0x8080_8080_8080_8080
}
