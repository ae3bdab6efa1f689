// Bytes, numbers and parts of standard input. Bytes that are missing at its end count as zero, and the next part is none.
ghost use Rattle.std.specs.Prelude.{IfSome};
ghost use Rattle.io.specs.Counts.{IsPrefixLen};

use crate::print;

const STDIN_FILENO: i32 = 0;

// The next byte, if there is one.
pub fn kind() -> Option<u8> {
    let mut b = [0u8; 1];
    let n = io::read_full(STDIN_FILENO, &mut b);
    if n == 1 { Some(b[0]) } else { None }
}

pub fn byte() -> u8 {
    kind().unwrap_or(0)
}

pub fn flag() -> bool {
    byte() != 0
}

pub fn half() -> u16 {
    let mut b = [0u8; 2];
    io::read_full(STDIN_FILENO, &mut b);
    le::join16(b[0], b[1])
}

pub fn word() -> u32 {
    let mut b = [0u8; 4];
    io::read_full(STDIN_FILENO, &mut b);
    le::join32(le::join16(b[0], b[1]), le::join16(b[2], b[3]))
}

pub fn long() -> u64 {
    let low = word();
    let high = word();
    (low as u64) + (high as u64) * 4294967296
}

// The next part, into the lent buffer: how many bytes it has there, if the whole part was read.
pub fn part(room: &mut [u8]) -> Option<usize>
    ensures { IfSome result (λ n. IsPrefixLen n room.new) }
{
    let asked = word();
    let n = io::count(asked as isize, room);
    if n != asked as usize {
        print::text(b"part too long\n");
        return None;
    }
    let got = io::read_full(STDIN_FILENO, &mut room[..n]);
    if got != n {
        print::text(b"case cut short\n");
        return None;
    }
    Some(io::count(asked as isize, room))
}

// So many of the room's bytes, and never more than it has.
pub fn within(n: usize, room: &[u8]) -> usize
    ensures { IsPrefixLen result room.now }
{
    if n < room.len() {
        return n;
    }
    room.len()
}
