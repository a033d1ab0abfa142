// Cases written by hand: the lines of the files in data/, which `args` names, against documents 01 and 02.
//   reader      good and damaged settings and trees at every boundary
//   leaf        leaf records and blocks, leaf by leaf, written by hand; but their pairs are the oracle's (`oracle leaves`). For the trees under '# pairs' the
//               pairs are those of document 02's readings, and the rest is the oracle's
//   sheet       whole sheets, limits and refusals of the sheet printer
//   paper       question papers and keys, printed (document 02, 14)
//   places, splits, sizes, feeds, typed, requests, drafts, programs      the lines of one library each
// The last three arguments give FAILED: a file that names no library, one that does not exist, and one that does not end.
#![tactic(auto)]

fn main(rt: HostRuntime) {
    test_cases::run(&rt);
}
