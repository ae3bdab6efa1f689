// A trace of short records in long ones: how many bytes are written, their hash, and the number of the bad record where it stops.
ghost use Rattle.std.specs.Prelude.{◌≡◌, ◌<◌, ◌≤◌, length};

use cases::{input, print};
use convert::{Converter, Progress, Reader};

// What was written so far, and the converter.
#[derive(Drop)]
struct Written {
    converter: Converter,
    count: u64,
    hash: u64,
}

pub fn run(trace: &[u8], read: usize)
    requires { (1 ≤ read) × (read ≤ 4096) }
{
    let mut piece = [0u8; 64];
    let mut out = room();
    let w = all(trace, read, &mut piece, &mut out);
    print::text(b"converted");
    print::field(w.count);
    print::text(b" hash");
    print::field(w.hash);
    print::end();
    let c = w.converter;
    if c.stopped {
        print::line(b"bad record", c.number);
    }
}

// Room for what one read is converted to.
fn room() -> [u8; 203840]
    ensures { 203840 ≡ length result }
{
    [0; 203840]
}

fn all(trace: &[u8], read: usize, piece: &mut [u8], out: &mut [u8]) -> Written
    requires { (1 ≤ read) × (read ≤ 4096) × (length piece.old ≡ 64) × (203840 ≤ length out.old) }
{
    let fresh = convert::new();
    let converter = fresh.converter;
    let mut reader = Reader { converter, have: 0 };
    let mut count: u64 = 0;
    let mut hash: u64 = 2166136261;
    for part in trace.chunks(read) {
        let progress = fed(reader, piece, part, out);
        reader = progress.reader;
        let n = input::within(progress.wrote, out);
        count = std::num::wrapping_add_u64(count, n as u64);
        hash = print::hashed(hash, &out[..n]);
    }
    let progress = convert::last(reader, piece, out);
    let n = input::within(progress.wrote, out);
    let end = progress.reader;
    let last = end.converter;
    Written {
        converter: last,
        count: std::num::wrapping_add_u64(count, n as u64),
        hash: print::hashed(hash, &out[..n]),
    }
}

// One read.
fn fed(r: Reader, piece: &mut [u8], input: &[u8], out: &mut [u8]) -> Progress
    requires { (r.have < 64) × (length piece.old ≡ 64) × (length input.now ≤ 4096) × (203840 ≤ length out.old) }
    ensures { result.reader.have < 64 }
{
    convert::feed(r, piece, input, out)
}
