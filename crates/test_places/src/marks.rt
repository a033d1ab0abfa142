// Lists of places, answered together: ROOM COUNT, NUMBER READ, then the places, each as LINE COLUMN, repeated until there are COUNT, then the answer to each
// place listed, as NODE LINE COLUMN; `none` where there are none.
ghost use Rattle.std.specs.Prelude.{◌≤◌};

use std::io;
use test_lines::{contents, report};

// The most places, and the most room, of a line.
const MOST: usize = 300;

// What an answer is before the call.
const BEFORE: u64 = 77;

// Number `k` of a field, or `most` where that is less.
fn at_most(s: &[u8], k: usize, most: u64) -> u64
    ensures { result ≤ most }
{
    (contents::nth(s, k) as u64).min(most)
}

// Place `i` of the places listed.
fn place_word(s: &[u8], i: usize) -> u64 {
    let at = i % MOST * 2;
    let line = at_most(s, at, 0xffff_ffff);
    let column = at_most(s, at + 1, 0xffff_ffff);
    line * 0x1_0000_0000 + column
}

// Answer `i` of the answers listed.
fn answer_word(s: &[u8], i: usize) -> u64 {
    let at = i % MOST * 3;
    let node = at_most(s, at, 0xffff);
    let line = at_most(s, at + 1, 0xffff);
    let column = at_most(s, at + 2, 0xffff);
    node * 0x1_0000_0000 + line * 0x1_0000 + column
}

// Entry `i` of a list of n that is repeated.
fn turn(i: usize, n: usize) -> usize {
    if n == 0 { 0 } else { i % n }
}

// The places of the call, from those listed.
fn put_places(s: &[u8], places: &mut [u64]) {
    let listed = contents::numbers(s) / 2;
    for (i, place) in places.iter_mut().enumerate() {
        *place = place_word(s, turn(i, listed));
    }
}

// Whether the first n answers are those listed, and the others are unchanged.
fn hold(s: &[u8], n: usize, answers: &[u64]) -> bool {
    let listed = contents::numbers(s) / 3;
    for (i, answer) in answers.iter().enumerate() {
        let want = if i < n {
            answer_word(s, turn(i, listed))
        } else {
            BEFORE
        };
        if *answer != want {
            return false;
        }
    }
    true
}

// As many places and as much room as the line says: makes the call, and compares its answer with the line.
pub fn marked(rt: &impl Print, settings: &[u8], tree: &[u8], want: &[u8]) -> io::Result<()> {
    let room = contents::nth(want, 0);
    let count = contents::nth(want, 1);
    if MOST < room || MOST < count {
        return report::too_long(rt);
    }
    let mut places = [0u64; MOST];
    let mut answers = [BEFORE; MOST];
    let places = &mut places[..count];
    let answers = &mut answers[..room];
    put_places(&want[contents::field(want, 2)..], places);
    let r = places::find_places(settings, tree, places, answers);
    print!(rt;
        "{count} places: number {}, answers {}, elements read {}",
        r.number, r.count, r.steps
    )?;
    let n = if r.number == 0 { count } else { 0 };
    let told = usize::from(r.number) == contents::nth(want, 2) && r.steps == contents::nth(want, 3);
    let answers_hold = hold(&want[contents::field(want, 3)..], n, answers);
    println!(rt; "{}", report::verdict(told && r.count == n && answers_hold))
}
