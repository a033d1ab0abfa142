// The sharing helper, called for each child and for one more: each run of equal answers on one line.
use crate::runs;
use settings::Priority;
use sharing::Shared;
use std::io;

fn same(a: Shared, b: Shared) -> bool {
    a.number == b.number && a.part == b.part
}

// Children `first` to `last`: the part, or the refusal.
fn show(rt: &impl Print, first: usize, last: usize, z: Shared) -> io::Result<()> {
    runs::name(rt, first, last)?;
    if z.number != 0 {
        print!(rt; "refused {}, part ", z.number)?;
    }
    println!(rt; "{}", z.part)
}

fn show_runs(rt: &impl Print, spare: usize, n: usize, p: Priority) -> io::Result<()> {
    let mut first = 0;
    let mut run = sharing::share(spare, n, p, 0);
    for i in 0..n {
        let z = sharing::share(spare, n, p, i + 1);
        if !same(z, run) {
            show(rt, first, i, run)?;
            first = i + 1;
            run = z;
        }
    }
    show(rt, first, n, run)
}

// `spare` among `n`, by the width priority of the settings.
pub fn among(rt: &impl Print, settings: &[u8], spare: usize, n: usize) -> io::Result<()> {
    let s = settings::read_settings(settings);
    show_runs(rt, spare, n, s.settings.width_priority)
}
