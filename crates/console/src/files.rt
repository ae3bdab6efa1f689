// The files that the arguments name.
ghost use Rattle.std.specs.Prelude.{IfSome};
ghost use Rattle.io.specs.Counts.{IsPrefixLen};
ghost use Rattle.std.specs.Io.{ReadsAtMost};

use crate::print;
use std::env::{Env, FillError};
use std::fs::Files;
use std::io::{Error, ErrorKind, Read, Result};
use std::{fs, str};

// The numbers that the system gives the errors of an argument that is missing, and of one that is too long.
const MISSING: i32 = 22;

const TOO_LONG: i32 = 36;

// Opens the file that argument `which` names. The name is put at the start of the lent buffer, and its length is given beside the file. Where
// that fails, a line says why.
pub fn open<R: Files + Env>(rt: &R, which: usize, name: &mut [u8]) -> Option<(R::File, usize)>
    ensures { IfSome result (λ opened. IsPrefixLen opened.1 name.new) }
{
    let n = match rt.arg(which, name) {
        Ok(n) => n,
        Err(error) => {
            print::failure(b"file name", &refusal(error));
            return None;
        }
    };
    match opened(rt, &name[..n]) {
        Ok(file) => Some((file, n)),
        Err(error) => {
            print::failure(&name[..n], &error);
            None
        }
    }
}

// Why an argument is not in the buffer.
fn refusal(error: FillError) -> Error {
    match error {
        FillError::NotPresent => Error::from_raw_os_error(MISSING),
        FillError::TooLong => Error::from_raw_os_error(TOO_LONG),
    }
}

// The file of a name. The library takes text alone for one.
fn opened<R: Files>(rt: &R, name: &[u8]) -> Result<R::File> {
    match str::from_utf8(name) {
        Ok(path) => fs::open(rt, path),
        Err(_) => Err(Error::new(ErrorKind::InvalidFilename, "not a name in UTF-8")),
    }
}

// Reads the file that argument `which` names into the lent buffer, as far as it goes: how many of its bytes stand there. Where that fails, a line says why.
pub fn load<R: Files + Env>(rt: &R, which: usize, buf: &mut [u8]) -> Option<usize>
    ensures { IfSome result (λ n. IsPrefixLen n buf.new) }
{
    let mut name = io::buffer();
    let (mut file, n) = open(rt, which, &mut name)?;
    match filled(&mut file, buf) {
        Ok(count) => Some(count),
        Err(error) => {
            print::failure(&name[..n], &error);
            None
        }
    }
}

// Reads until the buffer is full or the input ends. Behind a full buffer one read more shows whether the input can still be read.
fn filled<R: Read>(from: &mut R, buf: &mut [u8]) -> Result<usize>
    ensures { ReadsAtMost result buf.new }
{
    let mut done = 0;
    // What a read gives is the step.
    while done < buf.len() {
        let n = from.read(&mut buf[done..])?;
        if n == 0 {
            return Ok(done);
        }
        done += n;
    }
    let mut one = [0u8; 1];
    from.read(&mut one)?;
    Ok(done)
}
