// What the ledger program, a replay and the list of frames print of a trace.
ghost use Rattle.std.specs.Prelude.{◌≡◌, ◌<◌, ◌≤◌, length};
ghost use Rattle.records.specs.Form.{size_of};

use cases::{input, print};
use frame_lines::Show;
use records::Form;
use replay::{Progress, Reader, Replay};
use sizes::Opening;
use trace::Trace;

pub fn run(form: Form, show: Show, opening: Opening, trace: &[u8], read: usize)
    requires { (1 ≤ read) × (read ≤ 4096) }
{
    let begun = replay::new(opening);
    let start = begun.start;
    let r = begun.replay;
    match start {
        Err(number) => print::line(b"open refused", number as u64),
        Ok(()) => follow(form, show, r, trace, read),
    }
}

fn follow(form: Form, show: Show, r: Replay, trace: &[u8], read: usize)
    requires { (1 ≤ read) × (read ≤ 4096) }
{
    let mut out = [0u8; 30000];
    let mut piece = [0u8; 3076];
    let n = size(form);
    let t = all(form, show, r, trace, read, &mut piece[0..n], &mut out);
    end(show, t, &mut out);
}

// The bytes of a record.
fn size(form: Form) -> usize
    ensures { (result ≡ size_of form) × (64 ≤ result) × (result ≤ 3076) }
{
    match form {
        Form::Short => 64,
        Form::Long => 3076,
    }
}

// The lines of each read as they come, and the trace after the last.
fn all(
    form: Form,
    show: Show,
    r: Replay,
    trace: &[u8],
    read: usize,
    piece: &mut [u8],
    out: &mut [u8],
) -> Trace
    requires { (1 ≤ read) × (read ≤ 4096) × (length piece.old ≡ size_of form) × (64 ≤ size_of form) × (size_of form ≤ 3076) × (30000 ≤ length out.old) }
{
    let mut reader = Reader { replay: r, have: 0 };
    for part in trace.chunks(read) {
        let progress = fed(reader, form, show, piece, part, out);
        reader = progress.reader;
        let n = input::within(progress.wrote, out);
        print::text(&out[..n]);
    }
    let lined = replay::last(reader, form, show, piece, out);
    let n = input::within(lined.at, out);
    print::text(&out[..n]);
    let last = lined.replay;
    last.trace
}

// One read.
fn fed(
    r: Reader,
    form: Form,
    show: Show,
    piece: &mut [u8],
    input: &[u8],
    out: &mut [u8],
) -> Progress
    requires { (r.have < size_of form) × (length piece.old ≡ size_of form) × (size_of form ≤ 3076) × (length input.now ≤ 4096) × (30000 ≤ length out.old) }
    ensures { result.reader.have < size_of form }
{
    replay::feed(r, form, show, piece, input, out)
}

// What stands after the lines.
fn end(show: Show, t: Trace, out: &mut [u8]) {
    let n = ledger_text::end(out, show, t.finish());
    print::text(&out[..n]);
}
