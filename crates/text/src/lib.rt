// The line feeds of a text counted, and its longest line measured, in one pass from its beginning: eight bytes as one 64-bit word where eight
// remain, the tail byte by byte.
#![tactic(auto)]

pub mod measure;
mod seen;
mod words;

ghost use Rattle.std.specs.Prelude.{◌≡◌, ◌+◌, ◌≤◌, true, length, take, drop};
ghost use Rattle.text.specs.Feeds.{feed_count, counted_of};
ghost use Rattle.text.specs.Clauses.{first_feed, Whole, Passed};

use seen::Seen;
use words::{feeds_at, hint_at};

// The line feeds of a text, and the letters of its longest line.
#[derive(Clone, Copy)]
pub struct Counted {
    pub feeds: usize,
    pub longest: usize,
}

// Whether none of the four words from `at` on hints at a line feed.
fn is_plain(s: &[u8], at: usize) -> bool
    requires { at + 32 ≤ length s.now }
    ensures { result ≡ true → feed_count (take 32 (drop at s.now)) ≡ 0 }
{
    hint_at(s, at) | hint_at(s, at + 8) | hint_at(s, at + 16) | hint_at(s, at + 24) == 0
}

// Past the plain groups of four words from `at` on, to the next that is not plain, or to `end`.
fn past_plain(s: &[u8], at: usize, end: usize) -> usize
    requires { Whole 32 s.now at end }
    ensures { Whole 32 s.now result end × Passed s.now at result }
{
    // By hand, since it is slower by `step_by`.
    let mut i = at;
    while i < end {
        if !is_plain(s, i) {
            return i;
        }
        i += 32;
    }
    i
}

// The line feeds of `s`, and its longest line: past groups of four words, where not plain word by word, then past the words that remain, then past
// the tail.
pub fn count_feeds(s: &[u8]) -> Counted
    ensures { result ≡ counted_of s.now }
{
    let end = s.len() - s.len() % 32;
    let mut r = Seen::default();
    let mut i = past_plain(s, 0, end);
    while i < end {
        r = r.in_words(s, i, i + 32);
        i = past_plain(s, i + 32, end);
    }
    let tail = s.len() - s.len() % 8;
    r = r.in_words(s, end, tail).in_bytes(s, tail);
    Counted {
        feeds: r.feeds,
        longest: r.longest.saturating_sub(1).max(s.len() - r.start),
    }
}

// Where the first line feed from `from` on is, or the end: byte by byte, for a few bytes.
pub fn next_feed_bytewise(s: &[u8], from: usize) -> usize
    requires { from ≤ length s.now }
    ensures { result ≡ from + first_feed (drop from s.now) }
{
    for i in from..s.len() {
        if s[i] == b'\n' {
            return i;
        }
    }
    s.len()
}

// The same, where it is likely near: word by word where eight bytes remain, then byte by byte.
pub fn next_feed_near(s: &[u8], from: usize) -> usize
    requires { from ≤ length s.now }
    ensures { result ≡ from + first_feed (drop from s.now) }
{
    // By hand, since it is slower by `step_by`.
    let mut i = from;
    while 8 <= s.len() - i {
        let marked = feeds_at(s, i);
        if marked != 0 {
            return i + marked.trailing_zeros() as usize / 8;
        }
        i += 8;
    }
    next_feed_bytewise(s, i)
}

// The same: first past groups of four words.
pub fn next_feed(s: &[u8], from: usize) -> usize
    requires { from ≤ length s.now }
    ensures { result ≡ from + first_feed (drop from s.now) }
{
    let end = s.len() - (s.len() - from) % 32;
    next_feed_near(s, past_plain(s, from, end))
}
