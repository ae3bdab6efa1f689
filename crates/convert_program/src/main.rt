// Converts a trace of short records to one of long records, from the named file or from standard input.
#![tactic(auto)]

mod input;

use console::{files, print};
use std::rt::Runtime;
use trace::Trace;
use trace_arguments::reading;

// A file that cannot be opened gets one line, and nothing else is done.
fn from_file(rt: &impl Runtime, which: usize) {
    let mut name = io::buffer();
    let Some((mut file, n)) = files::open(rt, which, &mut name) else {
        return;
    };
    input::run(rt, &mut file, &name[..n]);
}

// 45 or 46, before anything is read.
fn shut(rt: &impl Runtime, number: u8) {
    let mut text = io::buffer();
    let n = ledger_text::shut(&mut text, number);
    print::answer(rt, &text[..n], false);
}

fn read(rt: &impl Runtime, which: usize) {
    if which == 0 {
        input::run(rt, &mut rt.reader(), b"standard input");
    } else {
        from_file(rt, which);
    }
}

// The options are those of a replay: they are checked, and change nothing of what is written.
fn main(rt: HostRuntime) {
    let call = reading::read(&rt, 1);
    if !reading::is_right(call) {
        print::problem(b"wrong arguments: see palkodhen --help\n");
        return;
    }
    let begun = Trace::new(trace_arguments::opening(call.frame, call.payload));
    let start = begun.start;
    match start {
        Ok(()) => read(&rt, call.file),
        Err(number) => shut(&rt, number),
    }
}
