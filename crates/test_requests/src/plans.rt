// Planning trees: NUMBER LEAST_W GREATEST_W LEAST_H GREATEST_H.
use std::io;
use test_lines::report::{is_nth, verdict};

pub fn plan(rt: &impl Print, settings: &[u8], tree: &[u8], want: &[u8]) -> io::Result<()> {
    let r = plan::plan_sheet(settings, tree);
    print!(rt; "{}", tree.len())?;
    let number = is_nth(rt, " bytes: number ", usize::from(r.number), want, 0)?;
    let least_width = is_nth(rt, ", columns ", r.least_width as usize, want, 1)?;
    let greatest_width = is_nth(rt, " to ", r.greatest_width as usize, want, 2)?;
    let least_height = is_nth(rt, ", lines ", r.least_height as usize, want, 3)?;
    let greatest_height = is_nth(rt, " to ", r.greatest_height as usize, want, 4)?;
    let right = number && least_width && greatest_width && least_height && greatest_height;
    println!(rt; "{}", verdict(right))
}
