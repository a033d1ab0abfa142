// One case of each kind: what `count_feeds` answers, and whether that is right.
use std::io;
use test_lines::{compare, report};

// The longest slice of an `e` line.
const LONGEST: usize = 600;

// Whether `count_feeds` answers for `s` what counting byte by byte gives.
fn holds(s: &[u8]) -> bool {
    let mut feeds: usize = 0;
    let mut longest: usize = 0;
    let mut letters: usize = 0;
    for b in s {
        if *b == b'\n' {
            feeds = feeds.saturating_add(1);
            letters = 0;
        } else {
            letters = letters.saturating_add(1);
        }
        longest = longest.max(letters);
    }
    let counted = text::count_feeds(s);
    counted.feeds == feeds && counted.longest == longest
}

// Compares a slice's line feeds and its longest line with the numbers of the line.
pub fn counted(rt: &impl Print, s: &[u8], count: usize, longest: usize) -> io::Result<()> {
    let c = text::count_feeds(s);
    let verdict = report::verdict(c.feeds == count && c.longest == longest);
    println!(rt;
        "{} bytes: {} feeds, longest {}{verdict}",
        s.len(),
        c.feeds,
        c.longest
    )
}

// How many of the slices are right: one without a line feed, and one with it at each place.
fn places(s: &mut [u8]) -> usize {
    compare::renew(s);
    let mut right = usize::from(holds(s));
    for i in 0..s.len() {
        s[i] = b'\n';
        right = right.saturating_add(usize::from(holds(s)));
        s[i] = compare::MADE_OF;
    }
    right
}

// All slices of the lengths `first` to `last`: of each length one more than it has bytes.
pub fn each_length(rt: &impl Print, first: usize, last: usize) -> io::Result<()> {
    let mut room = [0u8; LONGEST];
    let mut all: usize = 0;
    let mut right: usize = 0;
    for n in first.min(LONGEST)..=last.min(LONGEST) {
        all = all.saturating_add(n + 1);
        right = right.saturating_add(places(&mut room[..n]));
    }
    told(rt, right, all)
}

fn told(rt: &impl Print, right: usize, all: usize) -> io::Result<()> {
    println!(rt; "{right} of {all} slices{}", report::verdict(right == all))
}

// How many of the 256 slices with another byte at `at` are right; the byte is restored.
fn each_value(s: &mut [u8], at: usize) -> usize {
    if s.len() <= at {
        return 0;
    }
    let before = s[at];
    let mut right: usize = 0;
    for b in 0..=u8::MAX {
        s[at] = b;
        right = right.saturating_add(usize::from(holds(s)));
    }
    s[at] = before;
    right
}

// Each byte value at each of the eight places from `at` on.
pub fn values(rt: &impl Print, s: &mut [u8], at: usize) -> io::Result<()> {
    let mut right: usize = 0;
    for k in 0..8 {
        right = right.saturating_add(each_value(s, at.wrapping_add(k)));
    }
    told(rt, right, 2048)
}
