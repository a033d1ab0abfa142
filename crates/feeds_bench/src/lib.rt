// Ways to measure a text, as C functions for `bench/run feeds` alone. Each but the first answers the longest line times 65,536 and the line count.
#![tactic(auto)]

ghost use Rattle.std.specs.Prelude.{◌+◌, ◌<◌, ◌≤◌, length};

fn answer(longest: usize, lines: usize) -> u64 {
    (longest % 65536 * 65536 + lines % 65536) as u64
}

// The line feeds alone, byte by byte.
#[unsafe(no_mangle)]
pub extern "C" fn leg_count_plain(text: &[u8]) -> u64 {
    // A loop, since `filter` and `count` compile to more instructions.
    let mut feeds: usize = 0;
    for &b in text {
        if b == b'\n' {
            feeds = feeds.wrapping_add(1);
        }
    }
    feeds as u64
}

// Line feeds and longest line, byte by byte.
#[unsafe(no_mangle)]
pub extern "C" fn leg_measure_plain(text: &[u8]) -> u64 {
    let mut longest = 0;
    let mut lines: usize = 1;
    let mut n: usize = 0;
    for &b in text {
        n = n.wrapping_add(1);
        if b == b'\n' {
            lines = lines.wrapping_add(1);
            n = 0;
        }
        longest = longest.max(n);
    }
    answer(longest, lines)
}

// Whether the 16 bytes from `from` on have no line feed. The loop does not end early, so that the compiler can take all 16 bytes at once.
fn is_plain(text: &[u8], from: usize) -> bool
    requires { from + 16 ≤ length text.now }
{
    let mut plain = true;
    for &b in &text[from..from + 16] {
        plain &= b != b'\n';
    }
    plain
}

// Goes past the bytes from `from` on that have no line feed, 16 at a time.
fn skip_plain(text: &[u8], from: usize) -> usize
    requires { from ≤ length text.now }
    ensures { (from ≤ result) × (result ≤ length text.now) }
{
    // By hand: `bench/run feeds` times this search as it was.
    let mut i = from;
    while 16 <= text.len() - i {
        if !is_plain(text, i) {
            return i;
        }
        i += 16;
    }
    i
}

// Where the line that starts at `from` ends.
fn line_end(text: &[u8], from: usize) -> usize
    requires { from ≤ length text.now }
    ensures { (from ≤ result) × (result ≤ length text.now) }
{
    for i in skip_plain(text, from)..text.len() {
        if text[i] == b'\n' {
            return i;
        }
    }
    text.len()
}

// The measure before request 3 of document 02: it finds the end of one line after the other, 16 bytes at a time and then byte by byte.
fn search(text: &[u8]) -> u64
    requires { length text.now + 1 < 18446744073709551616 }
{
    let mut width = 0;
    let mut lines = 0;
    let mut from = 0;
    while from <= text.len() {
        let end = line_end(text, from);
        width = width.max(end - from);
        lines += 1;
        from = end + 1;
    }
    answer(width, lines)
}

#[unsafe(no_mangle)]
pub extern "C" fn leg_measure_search(text: &[u8]) -> u64 {
    if 65536 <= text.len() {
        return 0;
    }
    search(text)
}

// The measure that is in use.
#[unsafe(no_mangle)]
pub extern "C" fn leg_measure_words(text: &[u8]) -> u64 {
    if 65536 <= text.len() {
        return 0;
    }
    let z = text::measure::text_size(text);
    answer(z.width, z.height)
}
