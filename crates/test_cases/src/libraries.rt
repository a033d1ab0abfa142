// The libraries that make the calls of lines.
use std::io;
use test_lines::given::Given;

// The library of a file's lines.
#[derive(Clone, Copy)]
pub enum Library {
    Calls,
    Places,
    Splits,
    Sizes,
    Feeds,
    Typed,
    Requests,
    Drafts,
    Programs,
}

impl Library {
    // The library that a file's first line names.
    pub fn named(line: &[u8]) -> Option<Self> {
        let library = match line {
            b"of calls" => Library::Calls,
            b"of places" => Library::Places,
            b"of splits" => Library::Splits,
            b"of sizes" => Library::Sizes,
            b"of feeds" => Library::Feeds,
            b"of typed" => Library::Typed,
            b"of requests" => Library::Requests,
            b"of drafts" => Library::Drafts,
            b"of programs" => Library::Programs,
            _ => return None,
        };
        Some(library)
    }

    // Makes the call of a line with the inputs so far.
    pub fn ask(self, rt: &impl Print, kind: u8, given: &mut Given) -> io::Result<()> {
        let settings = given.settings.bytes_mut();
        let tree = given.tree.bytes_mut();
        let want = given.want.bytes();
        match self {
            Library::Calls => test_calls::ask(rt, kind, settings, tree, given.node, want),
            Library::Places => test_places::ask(rt, kind, settings, tree, want),
            Library::Splits => test_splits::ask(rt, kind, want),
            Library::Sizes => test_sizes::ask(rt, kind, settings, tree, want),
            Library::Feeds => test_feeds::ask(rt, kind, tree, want),
            Library::Typed => test_typed::ask(rt, kind, tree, want),
            Library::Requests => test_requests::ask(rt, kind, settings, tree, want),
            Library::Drafts => test_drafts::ask(rt, kind, settings, tree, want),
            Library::Programs => test_programs::ask(rt, kind, tree, want),
        }
    }
}
