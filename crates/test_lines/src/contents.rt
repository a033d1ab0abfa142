// The contents of a line: bytes, of which `\` and two hex digits encode one, and numbers.
ghost use Rattle.std.specs.Prelude.{◌≤◌, length};
ghost use Rattle.std.specs.Iterator.{at_most};

// The bytes that contents encode.
#[derive(Drop)]
pub struct Decoded<'a>(pub &'a [u8]);

impl<'a> Iterator for Decoded<'a> {
    type Item = u8;

    ghost remaining = { λ s. at_most (length s.0.now) };

    fn next(&mut self) -> Option<u8> {
        match self.0 {
            [b, rest @ ..] if *b != b'\\' => {
                self.0 = rest;
                Some(*b)
            }
            [_, high, low, rest @ ..] => {
                self.0 = rest;
                Some(hex(*high) * 16 + hex(*low))
            }
            [b, ..] => {
                self.0 = &[];
                Some(*b)
            }
            [] => None,
        }
    }
}

fn hex(b: u8) -> u8
    ensures { result ≤ 15 }
{
    if b < b':' { b % 16 } else { (b % 16 + 9) % 16 }
}

// The number that `s` begins with, as far as it fits.
pub fn number(s: &[u8]) -> usize {
    let mut n: usize = 0;
    for b in s.iter().take_while(|b| b.is_ascii_digit()) {
        let digit = usize::from(*b - b'0');
        match n.checked_mul(10).and_then(|tens| tens.checked_add(digit)) {
            Some(next) => n = next,
            None => return n,
        }
    }
    n
}

// The place of the first byte `b`, or the end.
pub fn find(s: &[u8], b: u8) -> usize
    ensures { result ≤ length s.now }
{
    s.iter().position(|x| *x == b).unwrap_or(s.len())
}

// A number, a space, and the bytes to write that many times.
pub fn repeated(s: &[u8]) -> (usize, &[u8]) {
    (number(s), past(s, find(s, b' ')))
}

// What follows the byte at `i`; nothing at the end.
pub fn past(s: &[u8], i: usize) -> &[u8] {
    if i < s.len() { &s[i + 1..] } else { &[] }
}

// `n`, or the length where that is less.
pub fn within(n: usize, s: &[u8]) -> usize
    ensures { result ≤ length s.now }
{
    n.min(s.len())
}

// Number `k`, counted from 0, of numbers separated by spaces.
pub fn nth(s: &[u8], k: usize) -> usize {
    s.split(|b| *b == b' ').nth(k).map_or(0, number)
}

// The second number.
pub fn second(s: &[u8]) -> usize {
    nth(s, 1)
}

// Where the next field starts, or the end; a comma and a space separate fields.
fn next_field(s: &[u8]) -> usize
    ensures { result ≤ length s.now }
{
    let i = find(s, b',');
    if s.len() - i < 2 { s.len() } else { i + 2 }
}

// Where field `k`, counted from 0, starts.
pub fn field(s: &[u8], k: usize) -> usize
    ensures { result ≤ length s.now }
{
    let mut at: usize = 0;
    for _ in 0..k {
        at += next_field(&s[at..]);
    }
    at
}

// How many numbers the first field has.
pub fn numbers(s: &[u8]) -> usize {
    let first = &s[..find(s, b',')];
    first
        .split(|b| *b == b' ')
        .filter(|word| word.first().is_some_and(|b| b.is_ascii_digit()))
        .count()
}
