// Describes a whole configuration, or picks a setting: `configuration FILE` and `setting FILE INTERFACE PAYLOAD`.
#![tactic(auto)]

mod setting;
mod whole;

use console::{print, words};

fn main(rt: HostRuntime) {
    let count = words::count(&rt);
    let mut word = [0u8; 16];
    let n = words::word(&rt, 1, &mut word);
    if check::same(&word[..n], b"configuration") {
        if count == 3 {
            whole::describe(&rt, 2);
            return;
        }
    }
    if check::same(&word[..n], b"setting") {
        if count == 5 {
            setting::describe(&rt, 2, 3, 4);
            return;
        }
    }
    print::problem(b"wrong arguments: see palkodhen --help\n");
}
