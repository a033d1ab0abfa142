// The inputs that the lines so far have set.
ghost use Rattle.std.specs.Prelude.{◌≤◌};

use crate::contents::{Decoded, number, repeated};
use crate::report;
use std::io;

// Bytes, at most N.
#[derive(Clone, Copy)]
pub struct Bounded<const N: usize> {
    room: [u8; N],
    count: usize,
    ghost within: { count ≤ N },
}

impl<const N: usize> Bounded<N> {
    fn new() -> Self {
        Bounded {
            room: [0; N],
            count: 0,
        }
    }

    pub fn bytes(&self) -> &[u8] {
        &self.room[..self.count]
    }

    pub fn bytes_mut(&mut self) -> &mut [u8] {
        let count = self.count;
        let room = &mut self.room;
        &mut room[..count]
    }

    // What `s` encodes, after the bytes that are there, as far as there is room.
    fn add(&mut self, rt: &impl Print, s: &[u8]) -> io::Result<()> {
        for b in Decoded(s) {
            if self.count < N {
                self.room[self.count] = b;
                self.count += 1;
            } else {
                report::too_long(rt)?;
            }
        }
        Ok(())
    }

    // What `s` encodes, in place of the bytes that are there.
    fn set(&mut self, rt: &impl Print, s: &[u8]) -> io::Result<()> {
        self.count = 0;
        self.add(rt, s)
    }

    // N, and bytes that are added N times.
    fn add_repeated(&mut self, rt: &impl Print, s: &[u8]) -> io::Result<()> {
        let (n, bytes) = repeated(s);
        for _ in 0..n {
            self.add(rt, bytes)?;
        }
        Ok(())
    }
}

// The bytes of settings, of a tree, and of what a line expects; and the node.
#[derive(Clone, Copy)]
pub struct Given {
    // Room for settings or a store of drafts.
    pub settings: Bounded<300>,
    // Room for a tree, or a typed list of one byte more than allowed.
    pub tree: Bounded<131100>,
    // Room for what a line expects, of which a sheet of 64,159 bytes is the longest.
    pub want: Bounded<66000>,
    pub node: usize,
}

// Whether a line of this kind sets an input and makes no call.
pub fn gives(kind: u8) -> bool {
    matches!(kind, b'=' | b':' | b'+' | b'&' | b'@')
}

impl Given {
    pub fn new() -> Self {
        Given {
            settings: Bounded::new(),
            tree: Bounded::new(),
            want: Bounded::new(),
            node: 0,
        }
    }

    // Sets the input of a line.
    pub fn give(&mut self, rt: &impl Print, kind: u8, rest: &[u8]) -> io::Result<()> {
        match kind {
            b'=' => self.settings.set(rt, rest),
            b':' => self.tree.set(rt, rest),
            b'+' => self.tree.add_repeated(rt, rest),
            b'&' => self.want.add_repeated(rt, rest),
            b'@' => {
                self.node = number(rest);
                Ok(())
            }
            _ => self.want.add(rt, rest),
        }
    }

    // Wanted bytes are used once.
    pub fn end_line(&mut self, kind: u8) {
        if kind != b'&' {
            self.want.count = 0;
        }
    }
}
