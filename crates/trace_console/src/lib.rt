// What the programs that read a trace share: it is read in constant memory, and the lines of each read are printed behind it. No contract can say what is read or written.
#![tactic(auto)]

ghost use Rattle.std.specs.Prelude.{◌≡◌, ◌≤◌, ◌<◌, length};
ghost use Rattle.records.specs.Form.{size_of};
ghost use Rattle.replay.specs.Inner.{read_room};

use console::print;
use frame_lines::Show;
use records::Form;
use replay::{Reader, Replay};
use sizes::Opening;
use std::io::{Error, ErrorKind, Print, Read};

// Enough for the lines of 65,536 bytes of records and of one that waits.
const ROOM: usize = 206_156;

// What a read came to.
#[derive(Drop)]
enum Went {
    // On to the next read.
    On,
    // To the end of the input, or to the first record that decides.
    Well,
    NotRead(Error),
    NotWritten(Error),
}

#[derive(Drop)]
struct Turn {
    reader: Reader,
    went: Went,
}

// What the lines that were written came to.
fn went_on(reader: &Reader) -> Went {
    if trace::decided(reader.replay.trace.state) {
        return Went::Well;
    }
    Went::On
}

// The bytes of one read, and their lines.
fn turned<R: Print>(
    rt: &R,
    reader: Reader,
    form: Form,
    show: Show,
    piece: &mut [u8],
    input: &[u8],
    out: &mut [u8],
) -> Turn
    requires { (reader.have < size_of form) × (length piece.old ≡ size_of form) × (read_room form (length input.now) ≤ length out.old) }
    ensures { result.reader.have < size_of form }
{
    let progress = replay::feed(reader, form, show, piece, input, out);
    let next = progress.reader;
    let wrote = progress.wrote;
    let went = match rt.write_all(&out[..wrote]) {
        Ok(()) => went_on(&next),
        Err(error) => Went::NotWritten(error),
    };
    Turn { reader: next, went }
}

// One read.
fn read_one<R: Print, F: Read>(
    rt: &R,
    from: &mut F,
    reader: Reader,
    form: Form,
    show: Show,
    piece: &mut [u8],
    input: &mut [u8],
    out: &mut [u8],
) -> Turn
    requires { (reader.have < size_of form) × (length piece.old ≡ size_of form) × (read_room form (length input.old) ≤ length out.old) }
    ensures { result.reader.have < size_of form }
{
    match from.read(input) {
        Ok(0) => Turn {
            reader,
            went: Went::Well,
        },
        Ok(n) => turned(rt, reader, form, show, piece, &input[..n], out),
        Err(error) => Turn {
            reader,
            went: Went::NotRead(error),
        },
    }
}

// Reads to the end of the input, or to the first record that decides.
fn read_all<R: Print, F: Read>(
    rt: &R,
    from: &mut F,
    first: Reader,
    form: Form,
    show: Show,
    piece: &mut [u8],
    input: &mut [u8],
    out: &mut [u8],
) -> Turn
    requires { (first.have < size_of form) × (length piece.old ≡ size_of form) × (read_room form (length input.old) ≤ length out.old) }
    ensures { result.reader.have < size_of form }
{
    let mut reader = first;
    // A proved loop has to end, and nothing says that a file does: no run uses this number up.
    for _ in 0..u64::MAX {
        let turn = read_one(rt, from, reader, form, show, piece, input, out);
        reader = turn.reader;
        match turn.went {
            Went::On => {}
            went => return Turn { reader, went },
        }
    }
    Turn {
        reader,
        went: Went::On,
    }
}

// What waits at the end, what stands after the lines, and the status.
fn finish<R: Print>(rt: &R, reader: Reader, form: Form, show: Show, piece: &[u8], out: &mut [u8])
    requires { (reader.have < size_of form) × (length piece.now ≡ size_of form) × (read_room form 0 ≤ length out.old) }
{
    let lined = replay::last(reader, form, show, piece, out);
    let at = lined.at;
    if let Err(error) = rt.write_all(&out[..at]) {
        print::not_written(&error);
        return;
    }
    let t = lined.replay.trace;
    let state = t.state;
    let n = ledger_text::end(out, show, t.finish());
    print::answer(rt, &out[..n], !trace::decided(state));
}

fn no_out() -> [u8; ROOM]
    ensures { 206156 ≡ length result }
{
    [0; ROOM]
}

fn read<R: Print, F: Read>(
    rt: &R,
    first: Reader,
    show: Show,
    form: Form,
    from: &mut F,
    name: &[u8],
    piece: &mut [u8],
)
    requires { (first.have < size_of form) × (length piece.old ≡ size_of form) × (size_of form ≤ 3076) }
{
    let mut input = io::large_buffer();
    let mut out = no_out();
    let read = read_all(rt, from, first, form, show, piece, &mut input, &mut out);
    let reader = read.reader;
    match read.went {
        Went::On => print::failure(name, &Error::from(ErrorKind::FileTooLarge)),
        Went::Well => finish(rt, reader, form, show, piece, &mut out),
        Went::NotRead(error) => print::failure(name, &error),
        Went::NotWritten(error) => print::not_written(&error),
    }
}

fn follow<R: Print, F: Read>(
    rt: &R,
    replay: Replay,
    show: Show,
    form: Form,
    from: &mut F,
    name: &[u8],
) {
    let first = Reader { replay, have: 0 };
    match form {
        Form::Short => {
            let mut piece = [0u8; 64];
            read(rt, first, show, Form::Short, from, name, &mut piece);
        }
        Form::Long => {
            let mut piece = [0u8; 3076];
            read(rt, first, show, Form::Long, from, name, &mut piece);
        }
    }
}

// 45 or 46, before anything is read.
fn shut<R: Print>(rt: &R, number: u8) {
    let mut text = io::buffer();
    let n = ledger_text::shut(&mut text, number);
    print::answer(rt, &text[..n], false);
}

// Reads all of a file or of standard input, and prints what came of it; a read that fails gets one line.
pub fn run<R: Print, F: Read>(
    rt: &R,
    show: Show,
    opening: Opening,
    form: Form,
    from: &mut F,
    name: &[u8],
) {
    let begun = replay::new(opening);
    let start = begun.start;
    let first = begun.replay;
    match start {
        Ok(()) => follow(rt, first, show, form, from, name),
        Err(number) => shut(rt, number),
    }
}
