// The settings' fields as the 28 bytes that encode them in a record.
use settings::Settings;
use std::io;
use test_lines::report;

const COUNT: usize = 28;

// Prints the fields: whether they are these 28 bytes.
pub fn compare(rt: &impl Print, s: &Settings, want: &[u8]) -> io::Result<()> {
    let fields = s
        .marks
        .iter()
        .map(|mark| usize::from(*mark))
        .chain([s.left, s.right, s.top, s.bottom])
        .chain(s.fills.iter().map(|fill| usize::from(*fill)))
        .chain([
            s.horizontal as usize,
            s.vertical as usize,
            usize::from(s.line_mode),
            s.width_priority as usize,
            s.height_priority as usize,
        ]);
    let mut right = want.len() == COUNT;
    for (found, byte) in fields.zip(want) {
        print!(rt; " {found}")?;
        right = right && found == usize::from(*byte);
    }
    println!(rt; "{}", report::verdict(right))
}
