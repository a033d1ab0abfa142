// A call of the collector, and its list afterwards: each run of equal entries on one line.
use crate::runs;
use collector::SizeRecord;
use std::io;

// What the list is filled with before a call.
const MADE_OF: SizeRecord = SizeRecord {
    natural_width: 9,
    natural_height: 9,
    width: 9,
    height: 9,
    below: 9,
};

// Entries `first` to `last`: natural width and height, allotted width and height, nodes below.
fn show(rt: &impl Print, first: usize, last: usize, z: &SizeRecord) -> io::Result<()> {
    runs::name(rt, first, last)?;
    println!(rt;
        "{} {} {} {} {}",
        z.natural_width, z.natural_height, z.width, z.height, z.below
    )
}

pub fn lend(rt: &impl Print, settings: &[u8], tree: &[u8], room: usize) -> io::Result<()> {
    let r = collector::collect_in(settings, tree, [MADE_OF; 512], room);
    println!(rt;
        "{room} lent: number {}, count {}",
        r.answer.number, r.answer.count
    )?;
    let mut first: usize = 0;
    for run in r.list.chunk_by(|a, b| a == b) {
        show(
            rt,
            first,
            first.wrapping_add(run.len()).wrapping_sub(1),
            &run[0],
        )?;
        first = first.wrapping_add(run.len());
    }
    Ok(())
}
