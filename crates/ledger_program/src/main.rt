// Prints the ledger of a trace, from the named file or from standard input.
#![tactic(auto)]

use console::{files, print, words};
use frame_lines::Show;
use records::Form;
use std::rt::Runtime;

// A file that cannot be opened gets one line, and nothing else is done.
fn from_file(rt: &impl Runtime) {
    let mut name = io::buffer();
    let Some((mut file, n)) = files::open(rt, 1, &mut name) else {
        return;
    };
    trace_console::run(
        rt,
        Show::Nothing,
        trace::LEDGER,
        Form::Short,
        &mut file,
        &name[..n],
    );
}

fn main(rt: HostRuntime) {
    let n = words::count(&rt);
    if 2 < n {
        print::problem(b"wrong arguments: see palkodhen --help\n");
        return;
    }
    if n == 2 {
        from_file(&rt);
        return;
    }
    trace_console::run(
        &rt,
        Show::Nothing,
        trace::LEDGER,
        Form::Short,
        &mut rt.stdin(),
        b"standard input",
    );
}
