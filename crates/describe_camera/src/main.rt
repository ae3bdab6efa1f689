// Describes a camera for a person: `camera FILE`, a configuration or the file `descriptors` that Linux keeps of a device.
#![tactic(auto)]

mod page;

use console::{print, words};

fn main(rt: HostRuntime) {
    let count = words::count(&rt);
    let mut word = [0u8; 16];
    let n = words::word(&rt, 1, &mut word);
    if check::same(&word[..n], b"camera") {
        if count == 3 {
            page::describe(&rt, 2);
            return;
        }
    }
    print::problem(b"wrong arguments: see palkodhen --help\n");
}
