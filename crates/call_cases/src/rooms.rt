// Case B: a list of calls with a room of zeros as the buffer, up to one for the largest frame, told as in case E, with the room's hash after the last
// four calls alone.
ghost use Rattle.std.specs.Prelude.{◌≡◌, length};

use crate::calls;
use cases::{input, print};
use sizes::Opening;

const MOST: u32 = 16_777_300;

const HASHED: u32 = 4;

// The room is on the stack, which is to be as large: `ulimit -s 32768`. Two calls of `large` stand here, so that it stays a function of its own: its caller's
// frame, with the room in it, would be that of every case.
pub fn run() -> bool {
    let opening = calls::opening();
    let n = input::word();
    let calls = input::word();
    if MOST < n {
        print::text(b"part too long\n");
        return false;
    }
    if calls < HASHED {
        return large(opening, n, 0, calls);
    }
    large(opening, n, calls - HASHED, HASHED)
}

fn large(opening: Opening, n: u32, first: u32, last: u32) -> bool {
    let mut room = no_room();
    cut(opening, &mut room, n, first, last)
}

fn no_room() -> [u8; 16_777_300]
    ensures { 16777300 ≡ length result }
{
    [0; 16_777_300]
}

fn cut(opening: Opening, room: &mut [u8], n: u32, first: u32, last: u32) -> bool {
    let m = io::count(n as isize, room);
    follow(opening, &mut room[..m], first, last)
}

// So many calls without the hash, and the last ones with it.
fn follow(opening: Opening, room: &mut [u8], first: u32, last: u32) -> bool {
    let session = calls::open(opening, room);
    let mut transfer = [0u8; 65600];
    let late = match calls::all(session, room, &mut transfer, first, false) {
        Ok(s) => calls::all(s, room, &mut transfer, last, true),
        Err(s) => Err(s),
    };
    calls::finish(late, room, true)
}
