// Case L: a trace of either form in reads of a given size, and what the programs print of it, or what it is converted to.
#![tactic(auto)]

ghost use Rattle.std.specs.Prelude.{◌≤◌};

mod converted;
mod shown;

use cases::input;
use frame_lines::Show;
use records::Form;
use sizes::{HeaderKind, Opening};

// The most bytes of a read.
const MOST: u32 = 4096;

pub fn run() -> bool {
    let form = form(input::flag());
    let show = input::byte();
    let frame = input::word() as usize;
    let payload = input::word() as usize;
    let read = limited(input::word());
    let mut trace = [0u8; 70000];
    let Some(n) = input::part(&mut trace) else {
        return false;
    };
    let opening = Opening {
        frame,
        payload,
        framing: 3,
        kind: HeaderKind::Old,
    };
    match show {
        3 => converted::run(&trace[..n], read),
        _ => shown::run(form, lines(show), opening, &trace[..n], read),
    }
    true
}

fn form(long: bool) -> Form {
    if long { Form::Long } else { Form::Short }
}

fn lines(show: u8) -> Show {
    match show {
        1 => Show::Replay,
        2 => Show::Frames,
        _ => Show::Nothing,
    }
}

// A size of reads, which is not 0 and not too large.
fn limited(n: u32) -> usize
    ensures { (1 ≤ result) × (result ≤ 4096) }
{
    n.clamp(1, MOST) as usize
}
