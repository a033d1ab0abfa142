// What the calls answer, as C gets it: numbers in lent lists, and one word (include/leg_sheet.h).
#![tactic(auto)]

pub mod cuts;
pub mod fields;
pub mod lists;

ghost use Rattle.std.specs.Prelude.{◌≡◌};
ghost use Rattle.c_encoding.specs.Words.{packed, typed_word};

use typed::Typed;

// The answer word: the number in the upper half, the count in the lower, as C reads it.
pub fn pack(number: u8, count: usize) -> u64
    ensures { result ≡ packed number count }
{
    (number as u64) * 4294967296 + (count % 4294967296) as u64
}

// The answer word of a typed list: the line above the number; in the lower half the count, or after a refusal the column.
pub fn pack_typed(t: Typed) -> u64
    ensures { result ≡ typed_word t }
{
    let line = (t.line % 16777216) as u64 * 1099511627776;
    if t.number == 0 {
        line + pack(0, t.count)
    } else {
        line + pack(t.number, t.column)
    }
}
