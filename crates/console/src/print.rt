// What is printed: answers on standard output, problems on standard error.
ghost use Rattle.io.specs.Counts.{IsPrefixLen};

use crate::status;
use std::io::{Error, Print, Write};

const STDERR_FILENO: i32 = 2;

// The text of an answer, and its status. Output that can't be written is told.
pub fn answer<R: Print>(rt: &R, bytes: &[u8], accepted: bool) {
    match rt.write_all(bytes) {
        Ok(()) => told(accepted),
        Err(error) => not_written(&error),
    }
}

fn told(accepted: bool) {
    if accepted {
        status::answered();
    } else {
        status::refused();
    }
}

// Standard output can't be written.
pub fn not_written(error: &Error) {
    failure(b"standard output", error);
}

// What is wrong with the call: a line on standard error.
pub fn problem(line: &[u8]) {
    io::write_all(STDERR_FILENO, line);
    status::failed();
}

// What failed, and the error's words: a line on standard error.
pub fn failure(what: &[u8], error: &Error) {
    let mut text = [0u8; 128];
    let mut rest = &mut text[..];
    // Text that has no room is cut.
    let _ = write!(rest, "{error}");
    let n = words(&text);
    io::write_all(STDERR_FILENO, what);
    io::write_all(STDERR_FILENO, b": ");
    io::write_all(STDERR_FILENO, &text[..n]);
    problem(b"\n");
}

// How many bytes an error's words have: behind the system's the library puts their number, and then come zeros.
fn words(text: &[u8]) -> usize
    ensures { IsPrefixLen result text.now }
{
    for n in 0..text.len() {
        if text[n] == 0 || text[n..].starts_with(b" (os error ") {
            return n;
        }
    }
    text.len()
}
