// Describes what a camera's descriptors say: `describe control FILE` and `describe map FILE ID`.
// Each way to describe is a file of its own, and a line in `main`.
#![tactic(auto)]

mod control_block;
mod control_bytes;

use console::{print, words};

fn main(rt: HostRuntime) {
    let count = words::count(&rt);
    let mut word = [0u8; 16];
    let n = words::word(&rt, 1, &mut word);
    if check::same(&word[..n], b"control") {
        if count == 3 {
            control_block::describe(&rt, 2);
            return;
        }
    }
    if check::same(&word[..n], b"map") {
        if count == 4 {
            control_bytes::describe(&rt, 2, 3);
            return;
        }
    }
    print::problem(b"wrong arguments: see palkodhen --help\n");
}
