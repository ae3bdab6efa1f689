// Describes a streaming block or a probe block, with the control block that it belongs to:
// `streaming CONTROL STREAMING` and `probe CONTROL STREAMING PROBE`.
#![tactic(auto)]

mod probe_block;
mod streaming_block;

use console::{print, words};

fn main(rt: HostRuntime) {
    let count = words::count(&rt);
    let mut word = [0u8; 16];
    let n = words::word(&rt, 1, &mut word);
    if check::same(&word[..n], b"streaming") {
        if count == 4 {
            streaming_block::describe(&rt);
            return;
        }
    }
    if check::same(&word[..n], b"probe") {
        if count == 5 {
            probe_block::describe(&rt);
            return;
        }
    }
    print::problem(b"wrong arguments: see palkodhen --help\n");
}
