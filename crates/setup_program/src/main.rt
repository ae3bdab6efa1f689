// Camera settings: `build CONTROL_FILE INTERFACE UNIT CONTROL REQUEST`, `read CONTROL_FILE INTERFACE PACKET_FILE` and
// `nearest CONTROL MIN MAX STEP WANTED`. Each is a file of its own.
#![tactic(auto)]

mod building;
mod moving;
mod reading;
mod words;

fn main(rt: HostRuntime) {
    let count = console::words::count(&rt);
    let mut word = [0u8; 16];
    let n = console::words::word(&rt, 1, &mut word);
    if check::same(&word[..n], b"build") {
        if count == 7 {
            building::build(&rt);
            return;
        }
    }
    if check::same(&word[..n], b"read") {
        if count == 5 {
            reading::read(&rt);
            return;
        }
    }
    if check::same(&word[..n], b"nearest") {
        if count == 7 {
            moving::nearest(&rt);
            return;
        }
    }
    console::print::problem(b"wrong arguments: see palkodhen --help\n");
}
