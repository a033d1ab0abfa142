// What was seen of a text up to a place: the line feeds, the longest line that one of them ended, with that line feed, and where the line after the
// last one starts.
ghost use Rattle.std.specs.Prelude.{◌≡◌, ◌+◌, ◌≤◌, length, take, drop};
ghost use Rattle.common.specs.Choice.{pick};
ghost use Rattle.text.specs.Feeds.{is_feed};
ghost use Rattle.text.specs.Clauses.{Fine, AtFeed, after_feed, after, SeenBefore, Whole};

use super::words::{feeds_at, hint_at};

#[derive(Clone, Copy, Default)]
pub struct Seen {
    pub feeds: usize,
    pub longest: usize,
    pub start: usize,
}

impl Seen {
    // A line feed at `end`.
    fn at_feed(self, end: usize) -> Seen
        requires { AtFeed end self }
        ensures { result ≡ after_feed end self }
    {
        let next = end + 1;
        Seen {
            feeds: self.feeds + 1,
            longest: self.longest.max(next - self.start),
            start: next,
        }
    }

    // A byte at `i`.
    fn at_byte(self, i: usize, byte: u8) -> Seen
        requires { AtFeed i self }
        ensures { result ≡ pick (is_feed byte) (after_feed i self) self }
    {
        if byte == b'\n' { self.at_feed(i) } else { self }
    }

    // Past the eight bytes from `at` on: at once where their word does not hint at a line feed, else from one line feed in it to the next.
    fn in_word(self, s: &[u8], at: usize) -> Seen
        requires { (at + 8 ≤ length s.now) × Fine at self }
        ensures { result ≡ after (take 8 (drop at s.now)) at self }
    {
        if hint_at(s, at) == 0 {
            return self;
        }
        let mut r = self;
        let mut left = feeds_at(s, at);
        while left != 0 {
            r = r.at_feed(at + left.trailing_zeros() as usize / 8);
            left &= left - 1;
        }
        r
    }

    // Past the words from `from` up to `to`.
    pub fn in_words(self, s: &[u8], from: usize, to: usize) -> Seen
        requires { Whole 8 s.now from to × SeenBefore s.now from self }
        ensures { SeenBefore s.now to result }
    {
        let mut r = self;
        for i in (from..to).step_by(8) {
            r = r.in_word(s, i);
        }
        r
    }

    // Past the bytes from `from` on, byte by byte.
    pub fn in_bytes(self, s: &[u8], from: usize) -> Seen
        requires { SeenBefore s.now from self }
        ensures { SeenBefore s.now (length s.now) result }
    {
        let mut r = self;
        for i in from..s.len() {
            r = r.at_byte(i, s[i]);
        }
        r
    }
}
