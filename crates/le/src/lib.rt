// Little-endian numbers at an offset of a slice.
#![tactic(auto)]

ghost use Rattle.std.specs.Prelude.{◌≡◌, ◌+◌, ◌*◌, ◌<◌, length, get_or};
ghost use Rattle.le.specs.Le.{le16_at, le32_at};

// A byte as a usize: asks nothing of its caller.
pub fn wide(x: u8) -> usize
    ensures { (result ≡ x) × (result < 256) }
{
    x as usize
}

// The number of two bytes, the low one first.
pub fn join16(a: u8, b: u8) -> u16
    ensures { result ≡ a + b * 256 }
{
    (a as u16) + (b as u16) * 256
}

// The number of two such numbers, the low one first.
pub fn join32(a: u16, b: u16) -> u32
    ensures { result ≡ a + b * 65536 }
{
    (a as u32) + (b as u32) * 65536
}

// Inner: the callers have looked at the length.
pub fn le16(s: &[u8], at: usize) -> u16
    requires { at + 1 < length s.now }
    ensures { result ≡ le16_at s.now at }
{
    join16(s[at], s[at + 1])
}

// Inner: the callers have looked at the length.
pub fn le32(s: &[u8], at: usize) -> u32
    requires { at + 3 < length s.now }
    ensures { result ≡ le32_at s.now at }
{
    join32(le16(s, at), le16(s, at + 2))
}

// The byte at an offset, or 0 past the end.
pub fn byte_at(s: &[u8], at: usize) -> u8
    ensures { result ≡ get_or s.now at 0 }
{
    if at < s.len() {
        return s[at];
    }
    0
}
