// One pass over the elements of an accepted tree, in node order: each element's tag and length, and after a Cell's its text.
ghost use Rattle.std.specs.Prelude.{◌≡◌, ◌+◌, ◌≤◌, ◌<◌, map, length};
ghost use Rattle.std.proofs.lemmas.List.Edits.{sets};
ghost use Rattle.tree.specs.Accepted.{bytes_of};
ghost use Rattle.blank.specs.Blank.{blanked, cell_flags, shown_byte};
ghost use Rattle.blank.specs.Clauses.{ReadElements, cell_marks, text_at, is_dotted};

// The bytes of the text of the element at the front of `s`: none for a Row or a Column.
fn text_length(s: &[u8]) -> usize
    requires { 2 < length s.now }
    ensures { result ≡ text_at s.now }
{
    if s[0] == 1 {
        tree::front::length_at(s)
    } else {
        0
    }
}

// For each node whether it is a Cell; none is after the last node.
pub fn find_cells(tree: &[u8]) -> [bool; 512]
    requires { ReadElements tree.now }
    ensures { (q : ReadElements tree.now) → result ≡ cell_marks (cell_flags q.tree) }
{
    let mut cells = [false; 512];
    let mut at = 0;
    let mut node = 0;
    while at < tree.len() {
        let rest = &tree[at..];
        cells[node] = rest[0] == 1;
        at += 3;
        at += text_length(rest);
        node += 1;
    }
    cells
}

// Writes a text from `at` on: as it is, or with `dots` a dot for each byte but line feeds.
fn put_text(text: &[u8], dots: bool, out: &mut [u8], at: usize)
    requires { at + length text.now ≤ length out.old }
    ensures { out.new ≡ sets out.old at (map (shown_byte dots) text.now) }
{
    for (i, b) in text.iter().enumerate() {
        out[at + i] = show_byte(dots, *b);
    }
}

fn show_byte(dots: bool, b: u8) -> u8
    ensures { result ≡ shown_byte dots b }
{
    if dots && b != b'\n' { b'.' } else { b }
}

// Writes the whole tree to the front of `out`, with dots in the Cells that `dots` marks.
pub fn put_elements(tree: &[u8], dots: &[bool; 512], out: &mut [u8])
    requires { ReadElements tree.now × (length tree.now ≤ length out.old) }
    ensures { (q : ReadElements tree.now) → out.new ≡ sets out.old 0 (bytes_of (blanked (is_dotted dots.now) 0 q.tree)) }
{
    let mut at = 0;
    let mut node = 0;
    while at < tree.len() {
        let rest = &tree[at..];
        let n = text_length(rest);
        tree::front::put_front(out, at, rest[0], tree::front::length_at(rest));
        at += 3;
        put_text(&rest[3..3 + n], dots[node], out, at);
        at += n;
        node += 1;
    }
}
