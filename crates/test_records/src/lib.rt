// A leaf's record, and a node's sizes, as the test lines write them.
#![tactic(auto)]

use block::Flags;
use collector::SizeRecord;
use leaf::LeafRecord;
use splits::SplitList;
use std::fmt;

// A list; one with too many pieces, or with entries past them, is left out.
#[derive(Clone, Copy)]
struct Pieces<'a>(&'a SplitList);

impl Pieces<'_> {
    // The pieces, where the entries past them are 0.
    fn pieces(&self) -> Option<&[u16]> {
        let n = self.0.count;
        if 512 < n {
            return None;
        }
        let (pieces, rest) = self.0.pieces.split_at(n);
        if rest.iter().all(|piece| *piece == 0) {
            Some(pieces)
        } else {
            None
        }
    }
}

impl fmt::Display for Pieces<'_> {
    fn fmt<W: fmt::Write>(&self, f: &mut fmt::Formatter<W>) -> fmt::Result {
        match self.pieces() {
            None => Ok(()),
            Some([]) => f.write_str(" none"),
            Some(pieces) => {
                for piece in pieces {
                    write!(f, " {piece}")?;
                }
                Ok(())
            }
        }
    }
}

// Eight letters, in the order of the fields.
#[derive(Clone, Copy)]
struct Letters(Flags);

impl fmt::Display for Letters {
    fn fmt<W: fmt::Write>(&self, f: &mut fmt::Formatter<W>) -> fmt::Result {
        let flags = self.0;
        let letters = [
            flags.first_row,
            flags.last_row,
            flags.first_col,
            flags.last_col,
            flags.no_right,
            flags.lean_top,
            flags.top_left,
            flags.top_intersection,
        ];
        for yes in &letters {
            f.write_str(if *yes { "y" } else { "n" })?;
        }
        Ok(())
    }
}

// A leaf's record: its size, the two lists, the flags, the pair of its cut.
#[derive(Clone, Copy)]
pub struct Record<'a>(pub &'a LeafRecord);

impl fmt::Display for Record<'_> {
    fn fmt<W: fmt::Write>(&self, f: &mut fmt::Formatter<W>) -> fmt::Result {
        let r = self.0;
        write!(
            f,
            "{} by {}, across{}, down{}, {}, pair {} {}",
            r.size.width,
            r.size.height,
            Pieces(&r.horizontal),
            Pieces(&r.vertical),
            Letters(r.flags),
            r.pair.taken,
            r.pair.rest
        )
    }
}

// A node's sizes, the natural one and the allotted one, and the number of nodes below it.
#[derive(Clone, Copy)]
pub struct Measured(pub SizeRecord);

impl fmt::Display for Measured {
    fn fmt<W: fmt::Write>(&self, f: &mut fmt::Formatter<W>) -> fmt::Result {
        let z = self.0;
        write!(
            f,
            "{} by {}, {} by {}, below {}",
            z.natural_width, z.natural_height, z.width, z.height, z.below
        )
    }
}
