// Test cases are lines of files, which a program's arguments name. The first line of a file names the library that runs its lines, as `of splits`
// (libraries.rt). Each other line is a letter, a space and its contents, in which `\` and two hex digits encode a byte. These lines set an input
// (`test_lines::given`):
//   = the settings' bytes     : the tree's bytes     + N, bytes: appended to the tree N times
//   @ the node                & N, bytes: what the next line expects begins with these, N times
// # is a title, which is printed. A line of any other letter makes a call and has the answer expected; its library says which.
#![tactic(auto)]

mod libraries;

use libraries::Library;
use standard_streams::input;
use std::env::{Env, FillError};
use std::fs::Files;
use std::io::{ErrorKind, Read};
use std::{fs, io, str};
use test_lines::given::Given;
use test_lines::report::Lossy;
use test_lines::{contents, given, report};

// A file has fewer bytes than this.
const MOST: usize = 131072;

// Makes the call of a line with the inputs so far; a title is printed.
fn ask(rt: &impl Print, of: Library, kind: u8, given: &mut Given) -> io::Result<()> {
    if kind == b'#' {
        report::bytes(rt, given.want.bytes())?;
        return println!(rt);
    }
    if given::gives(kind) {
        return Ok(());
    }
    of.ask(rt, kind, given)
}

// One line: the input that it sets, then its call.
fn step(rt: &impl Print, of: Library, line: &[u8], given: &mut Given) -> io::Result<()> {
    match line {
        [kind, _, rest @ ..] => {
            given.give(rt, *kind, rest)?;
            ask(rt, of, *kind, given)?;
            given.end_line(*kind);
            Ok(())
        }
        _ => report::failed(rt, "line without contents"),
    }
}

// The lines of a file after its first.
fn run_lines(rt: &impl Print, of: Library, lines: &[u8]) -> io::Result<()> {
    let mut given = Given::new();
    for line in lines.split_inclusive(|b| *b == b'\n') {
        let line = line.strip_suffix(b"\n").unwrap_or(line);
        step(rt, of, line, &mut given)?;
    }
    Ok(())
}

// The bytes of a file, of which the first line names the library.
fn run_bytes(rt: &impl Print, cases: &[u8]) -> io::Result<()> {
    let end = contents::find(cases, b'\n');
    match Library::named(&cases[..end]) {
        None => report::failed(rt, ": names no library"),
        Some(of) => {
            println!(rt)?;
            run_lines(rt, of, contents::past(cases, end))
        }
    }
}

// An open file, read and closed.
fn run_open<F: Read + Drop>(rt: &impl Print, mut file: F) -> io::Result<()> {
    let mut cases = [0u8; MOST];
    match input::read_input(&mut file, &mut cases) {
        Ok(MOST) => report::failed(rt, ": does not end"),
        Ok(n) => run_bytes(rt, &cases[..n]),
        Err(_) => report::failed(rt, ": cannot be read"),
    }
}

fn open<R: Files>(rt: &R, name: &[u8]) -> io::Result<R::File> {
    match str::from_utf8(name) {
        Ok(path) => fs::open(rt, path),
        Err(_) => Err(io::Error::from(ErrorKind::InvalidFilename)),
    }
}

fn run_file(rt: &impl Print, files: &impl Files, name: &[u8]) -> io::Result<()> {
    print!(rt; "file ")?;
    report::bytes(rt, name)?;
    match open(files, name) {
        Ok(file) => run_open(rt, file),
        Err(_) => report::failed(rt, ": cannot be opened"),
    }
}

// All files that the arguments name; an argument that is longer than any path names none.
fn run_files(rt: &impl Print, files: &(impl Files + Env)) -> io::Result<()> {
    let mut name = [0u8; 4096];
    for i in 1..usize::MAX {
        match files.arg(i, &mut name) {
            Ok(n) => run_file(rt, files, &name[..n])?,
            Err(FillError::TooLong) => run_file(rt, files, b"")?,
            Err(FillError::NotPresent) => return Ok(()),
        }
    }
    Ok(())
}

// The same, and a print that fails stops nothing.
pub fn run(rt: &(impl Print + Files + Env)) {
    let _ = run_files(&Lossy(rt), rt);
}
