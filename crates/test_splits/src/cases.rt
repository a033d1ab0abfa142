// One case of each call: what it answers, and whether that is what the line says.
use crate::{fields, lists};
use common::copy::copy;
use splits::cut::CutPair;
use splits::lent::list_at;
use splits::{Positions, SplitList};

// Calls other than cuts have no pair.
const NO_PAIR: CutPair = CutPair { taken: 0, rest: 0 };

// What a call answers: its number, yes or no, its pair, the pieces taken or the positions, the list left.
#[derive(Clone, Copy, PartialEq, Eq)]
struct Answer {
    number: usize,
    yes: bool,
    pair: CutPair,
    taken: Positions,
    left: Positions,
}

fn by_value(list: SplitList, w: u16) -> Answer {
    let r = splits::short_splits3(list, w);
    Answer {
        number: usize::from(r.number),
        yes: r.split,
        pair: r.pair,
        taken: lists::widened(&r.taken),
        left: lists::widened(&r.left),
    }
}

// The list left is then the lent one.
fn in_place(list: SplitList, w: u16) -> Answer {
    let r = splits::cut_here(list, w);
    Answer {
        number: usize::from(r.answer.number),
        yes: r.answer.split,
        pair: r.answer.pair,
        taken: lists::widened(&r.answer.taken),
        left: lists::widened(&r.list),
    }
}

fn short(list: SplitList, w: u16) -> Answer {
    let r = splits::short_splits(list, w);
    Answer {
        number: usize::from(r.number),
        yes: false,
        pair: NO_PAIR,
        taken: r.positions,
        left: lists::widened(&r.left),
    }
}

// Copies the pieces of `b` behind the first of `a`, in lent memory.
fn join(a: SplitList, b: SplitList) -> Answer {
    let none = splits::no_pieces();
    let mut got = none;
    if b.count < 512 {
        let mut room = [a.pieces[0]; 513];
        copy(&mut room, 1, &b.pieces);
        got = list_at(&room, 0, 1 + b.count);
    }
    Answer {
        number: 0,
        yes: false,
        pair: NO_PAIR,
        taken: lists::widened(&got),
        left: lists::widened(&none),
    }
}

// What fields 2 to 5 of the line say; the pair is 0 and 0 where it is left out.
fn wanted(s: &[u8]) -> Answer {
    let numbers = fields::list(s, 5).pieces;
    Answer {
        number: fields::number(s, 4),
        yes: fields::yes(s, 4),
        pair: CutPair {
            taken: usize::from(numbers[0]),
            rest: numbers[1],
        },
        taken: lists::widened(&fields::list(s, 2)),
        left: lists::widened(&fields::list(s, 3)),
    }
}

// Whether the case in this line has the answer that the line says; a line of an unknown kind does not.
pub fn holds(kind: u8, s: &[u8]) -> bool {
    let list = fields::list(s, 0);
    let w = (fields::number(s, 1) % 0x1_0000) as u16;
    let want = wanted(s);
    match kind {
        b'c' => by_value(list, w) == want && in_place(list, w) == want,
        b'v' => by_value(list, w) == want,
        b'l' => in_place(list, w) == want,
        b's' => short(list, w) == want,
        b'j' => join(list, fields::list(s, 1)) == want,
        _ => false,
    }
}
