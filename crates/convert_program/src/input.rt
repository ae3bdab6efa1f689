// Reads short records and writes long ones in constant memory.
ghost use Rattle.std.specs.Prelude.{◌≡◌, ◌+◌, ◌*◌, ◌≤◌, ◌<◌, length};

use console::{print, status};
use convert::Reader;
use std::io::{Error, ErrorKind, Print, Read};

const STDERR_FILENO: i32 = 2;

// Enough for the long records of 4,096 bytes and of those that wait.
const ROOM: usize = 203_840;

#[derive(Drop)]
enum Went {
    // To the end of the input, or to the record at which it stopped.
    Well,
    NotRead(Error),
    NotWritten(Error),
}

#[derive(Drop)]
struct Input {
    reader: Reader,
    went: Went,
}

// One read more, and whether its long records were written.
#[derive(Drop)]
struct Turn {
    reader: Reader,
    written: std::io::Result<()>,
}

fn turned<R: Print>(rt: &R, reader: Reader, piece: &mut [u8], input: &[u8], out: &mut [u8]) -> Turn
    requires { ((reader.have < 64) × (length piece.old ≡ 64)) × (49 * (64 + length input.now) ≤ length out.old) }
    ensures { result.reader.have < 64 }
{
    let progress = convert::feed(reader, piece, input, out);
    let next = progress.reader;
    let wrote = progress.wrote;
    Turn {
        written: rt.write_all(&out[..wrote]),
        reader: next,
    }
}

// Reads to the end of the input, or to the record at which the converter stops.
fn read_all<R: Print, F: Read>(
    rt: &R,
    from: &mut F,
    piece: &mut [u8],
    input: &mut [u8],
    out: &mut [u8],
) -> Input
    requires { (length piece.old ≡ 64) × (49 * (64 + length input.old) ≤ length out.old) }
    ensures { result.reader.have < 64 }
{
    let mut reader = convert::new();
    // A proved loop has to end, and nothing says that a file does: no run uses this number up.
    for _ in 0..u64::MAX {
        let n = match from.read(input) {
            Ok(n) => n,
            Err(error) => {
                return Input {
                    reader,
                    went: Went::NotRead(error),
                };
            }
        };
        if n == 0 {
            return Input {
                reader,
                went: Went::Well,
            };
        }
        let turn = turned(rt, reader, piece, &input[..n], out);
        reader = turn.reader;
        if let Err(error) = turn.written {
            return Input {
                reader,
                went: Went::NotWritten(error),
            };
        }
        if reader.converter.stopped {
            return Input {
                reader,
                went: Went::Well,
            };
        }
    }
    Input {
        reader,
        went: Went::NotRead(Error::from(ErrorKind::FileTooLarge)),
    }
}

// The line of a bad record.
fn bad(number: u64) {
    let mut line = [0u8; 64];
    let one = [number];
    let n = text::line(&mut line, 0, b"bad record", &one);
    io::write_all(STDERR_FILENO, &line[0..n]);
    status::refused();
}

// What waits at the end, and the status.
fn finish<R: Print>(rt: &R, reader: Reader, piece: &[u8], out: &mut [u8])
    requires { (reader.have < 64) × (length piece.now ≡ 64) × (49 * 64 ≤ length out.old) }
{
    let progress = convert::last(reader, piece, out);
    let wrote = progress.wrote;
    if let Err(error) = rt.write_all(&out[..wrote]) {
        print::not_written(&error);
        return;
    }
    let r = progress.reader;
    let c = r.converter;
    if c.stopped {
        bad(c.number);
    } else {
        status::answered();
    }
}

fn no_out() -> [u8; ROOM]
    ensures { 203840 ≡ length result }
{
    [0; ROOM]
}

// Converts all of a file or of standard input; a read that fails gets one line.
pub fn run<R: Print, F: Read>(rt: &R, from: &mut F, name: &[u8]) {
    let mut piece = [0u8; 64];
    let mut input = io::buffer();
    let mut out = no_out();
    let read = read_all(rt, from, &mut piece, &mut input, &mut out);
    let reader = read.reader;
    match read.went {
        Went::Well => finish(rt, reader, &piece, &mut out),
        Went::NotRead(error) => print::failure(name, &error),
        Went::NotWritten(error) => print::not_written(&error),
    }
}
