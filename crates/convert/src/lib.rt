// The converter from short records to long ones, in constant memory. The input comes in reads of any size; at the first bad record it writes one byte FF, and then no more.
#![tactic(auto)]

ghost use Rattle.std.specs.Prelude.{◌≡◌, ◌+◌, ◌*◌, ◌<◌, ◌≤◌, false, [], ◌∷◌, length};
ghost use Rattle.text.specs.Put.{Put};
ghost use Rattle.records.specs.declared.Form.TheVariants.{Short};
ghost use Rattle.records.specs.Record.{record_bad};
ghost use Rattle.long_records.specs.Long.{long_size};
ghost use Rattle.cuts.specs.Cuts.{cut_of};
ghost use Rattle.convert.specs.Convert.{long_for};
ghost use Rattle.convert.specs.Inner.{new_reader, next_number, stop_of, on_of, one_of, text_of, all_of, texts_of, Gone, Fed, Ended};

use records::Form;

// Whether the record before was close, whether it has stopped, and the number of the next record, or of the one at which it stopped.
#[derive(Drop)]
pub struct Converter {
    pub closed: bool,
    pub stopped: bool,
    pub number: u64,
}

// A converter, and how many bytes of the next record have come.
#[derive(Drop)]
pub struct Reader {
    pub converter: Converter,
    pub have: usize,
}

#[derive(Drop)]
pub struct Progress {
    pub reader: Reader,
    // How many bytes were written.
    pub wrote: usize,
}

#[derive(Drop)]
struct Written {
    converter: Converter,
    // The place after what was written.
    at: usize,
}

// No bytes yet.
pub fn new() -> Reader
    ensures { result ≡ new_reader }
{
    Reader {
        converter: Converter {
            closed: false,
            stopped: false,
            number: 1,
        },
        have: 0,
    }
}

// The number of the record after this one. No file has so many that it begins again.
fn next(n: u64) -> u64
    ensures { result ≡ next_number n }
{
    std::num::wrapping_add_u64(n, 1)
}

// A bad record, or anything after close.
fn stop(c: Converter, out: &mut [u8], at: usize) -> Written
    requires { at + 1 ≤ length out.old }
    ensures { (result.converter ≡ stop_of c) × Put out.old at (255 ∷ []) result.at out.new }
{
    Written {
        at: text::put(out, at, b"\xFF"),
        converter: Converter {
            closed: c.closed,
            stopped: true,
            number: c.number,
        },
    }
}

// A good record.
fn on(c: Converter, r: &[u8], out: &mut [u8], at: usize) -> Written
    requires { (record_bad Short r.now ≡ false) × (at + long_size ≤ length out.old) }
    ensures { (result.converter ≡ on_of c r.now) × Put out.old at (long_for r.now) result.at out.new }
{
    let n = records::length(Form::Short, r);
    let kind = r[0];
    Written {
        at: long_records::write(out, at, kind, &r[2..2 + n]),
        converter: Converter {
            closed: kind == 2,
            stopped: false,
            number: next(c.number),
        },
    }
}

// One record. A long one has 49 times the bytes, or less.
fn one(c: Converter, r: &[u8], out: &mut [u8], at: usize) -> Written
    requires { (0 < length r.now) × (at + 49 * length r.now ≤ length out.old) }
    ensures converter_value { (result.converter ≡ one_of c r.now) × Put out.old at (text_of c r.now) result.at out.new }
    ensures at_bound { result.at ≤ at + 49 * length r.now }
{
    if c.stopped {
        return Written { converter: c, at };
    }
    if c.closed {
        return stop(c, out, at);
    }
    if records::bad(Form::Short, r) {
        return stop(c, out, at);
    }
    on(c, r, out, at)
}

// All the records of some bytes.
fn run(c: Converter, part: &[u8], out: &mut [u8], start: usize) -> Written
    requires { start + 49 * length part.now ≤ length out.old }
    ensures converter_value { (result.converter ≡ all_of c (cut_of 64 part.now)) × Put out.old start (texts_of c (cut_of 64 part.now)) result.at out.new }
    ensures at_bound { result.at ≤ start + 49 * length part.now }
{
    let mut converter = c;
    let mut at = start;
    for record in part.chunks(64) {
        let w = one(converter, record, out, at);
        converter = w.converter;
        at = w.at;
    }
    Written { converter, at }
}

// The whole records from `from` on; what is left over waits in the piece.
fn rest(
    c: Converter,
    at: usize,
    piece: &mut [u8],
    input: &[u8],
    from: usize,
    out: &mut [u8],
) -> Progress
    requires { (from ≤ length input.now) × (at + 49 * length input.now ≤ length out.old) }
    ensures { Gone c at piece.old input.now from out.old result.reader result.wrote piece.new out.new }
{
    let to = cuts::end(64, from, input.len());
    let w = run(c, &input[from..to], out, at);
    let have = cuts::fill(piece, 0, &input[to..input.len()]);
    let converter = w.converter;
    Progress {
        reader: Reader { converter, have },
        wrote: w.at,
    }
}

// Inner: so many bytes more; the records that are whole now are converted.
pub fn feed(r: Reader, piece: &mut [u8], input: &[u8], out: &mut [u8]) -> Progress
    requires { ((r.have < 64) × (length piece.old ≡ 64)) × (49 * (64 + length input.now) ≤ length out.old) }
    ensures { Fed r piece.old input.now out.old result.reader result.wrote piece.new out.new }
{
    let c = r.converter;
    let have = r.have;
    if have == 0 {
        return rest(c, 0, piece, input, 0, out);
    }
    let n = cuts::fill(piece, have, input);
    if have + n < 64 {
        return Progress {
            reader: Reader {
                converter: c,
                have: have + n,
            },
            wrote: 0,
        };
    }
    let w = run(c, piece, out, 0);
    let d = w.converter;
    rest(d, w.at, piece, input, n, out)
}

// Inner: the end of the input. What is left over is a partial record.
pub fn last(r: Reader, piece: &[u8], out: &mut [u8]) -> Progress
    requires { ((r.have < 64) × (length piece.now ≡ 64)) × (49 * 64 ≤ length out.old) }
    ensures { Ended r piece.now out.old result.reader result.wrote out.new }
{
    let c = r.converter;
    let have = r.have;
    let w = run(c, &piece[0..have], out, 0);
    let converter = w.converter;
    Progress {
        reader: Reader { converter, have: 0 },
        wrote: w.at,
    }
}
