// The fields of a line: a word, and what follows it.
use crate::lists;
use splits::SplitList;
use test_lines::contents;

// The list in field `k`.
pub fn list(s: &[u8], k: usize) -> SplitList {
    let rest = &s[contents::field(s, k)..];
    lists::list(&rest[..contents::find(rest, b',')])
}

// The number after the word of field `k`; 0 where there is none.
pub fn number(s: &[u8], k: usize) -> usize {
    contents::second(&s[contents::field(s, k)..])
}

// Whether field `k` says yes.
pub fn yes(s: &[u8], k: usize) -> bool {
    s.get(contents::field(s, k)) == Some(&b'y')
}
