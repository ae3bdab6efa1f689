// `replay` or `frames`, options and a file: what the frames of a trace came to, from the named file or from standard input.
#![tactic(auto)]

use console::{files, print, words};
use frame_lines::Show;
use sizes::Opening;
use std::rt::Runtime;
use trace_arguments::reading;
use trace_arguments::reading::Call;

fn wrong() {
    print::problem(b"wrong arguments: see palkodhen --help\n");
}

// A file that cannot be opened gets one line, and nothing else is done.
fn from_file(rt: &impl Runtime, show: Show, opening: Opening, call: Call) {
    let mut name = io::buffer();
    let Some((mut file, n)) = files::open(rt, call.file, &mut name) else {
        return;
    };
    let form = call.form;
    trace_console::run(rt, show, opening, form, &mut file, &name[..n]);
}

fn start(rt: &impl Runtime, show: Show) {
    let call = reading::read(rt, 2);
    if !reading::is_right(call) {
        wrong();
        return;
    }
    let opening = trace_arguments::opening(call.frame, call.payload);
    if call.file == 0 {
        let form = call.form;
        trace_console::run(rt, show, opening, form, &mut rt.reader(), b"standard input");
        return;
    }
    from_file(rt, show, opening, call);
}

fn main(rt: HostRuntime) {
    let mut word = [0u8; 16];
    let n = words::word(&rt, 1, &mut word);
    if check::same(&word[..n], b"replay") {
        start(&rt, Show::Replay);
        return;
    }
    if check::same(&word[..n], b"frames") {
        start(&rt, Show::Frames);
        return;
    }
    wrong();
}
