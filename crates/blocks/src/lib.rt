// What a control block and a streaming block are both held to: 1 to 4 and 21 to 24 of the block as a whole, 5, 6 and 25, 26 of each descriptor.
#![tactic(auto)]

ghost use Rattle.std.specs.Prelude.{◌≡◌, ◌+◌, ◌<◌, length};
ghost use Rattle.rules.specs.Numbered.{first_row};
ghost use Rattle.blocks.specs.Blocks.{whole_rows, length_broken, type_broken};

// CS_INTERFACE, the type of every descriptor of a block.
const DESCRIPTOR: u8 = 0x24;

const HEADER: u8 = 1;

// A kind of block: the fewest bytes and the most, where its header has wTotalLength, and the number of its first rule.
#[derive(Drop)]
pub struct Limits {
    pub least: usize,
    pub most: usize,
    pub total: usize,
    pub first: u8,
}

// Inner: a block of the least length has its wTotalLength.
// The first rule that the block as a whole breaks; 0 where none is broken. (A Result would have to require that `first` is not 0.)
pub fn whole_rule(s: &[u8], b: Limits) -> u8
    requires lt_least { (2 < b.least) × (b.total + 1 < b.least) }
    requires first_bound { b.first < 200 }
    ensures { result ≡ first_row (whole_rows b s.now) }
{
    let n = s.len();
    if n < b.least {
        return b.first;
    }
    if b.most < n {
        return b.first + 1;
    }
    if s[1] != DESCRIPTOR {
        return b.first + 2;
    }
    if s[2] != HEADER {
        return b.first + 2;
    }
    let at = b.total;
    let total = le::le16(s, at) as usize;
    if total != n {
        return b.first + 3;
    }
    0
}

// Inner: a descriptor starts at `at`. Whether bLength is under 3 or past the end.
#[tactic(auto, unfolding(crate::specs::Blocks::length_broken))]
pub fn length_broken(s: &[u8], at: usize) -> bool
    requires { at < length s.now }
    ensures { result ≡ length_broken s.now at }
{
    let len = le::wide(s[at]);
    len < 3 || s.len() - at < len
}

// Inner: a descriptor of at least 3 bytes starts at `at`. Whether its type is not 0x24, or it is a second header.
#[tactic(auto, unfolding(crate::specs::Blocks::type_broken))]
pub fn type_broken(s: &[u8], at: usize) -> bool
    requires { at + 2 < length s.now }
    ensures { result ≡ type_broken s.now at }
{
    s[at + 1] != DESCRIPTOR || (s[at + 2] == HEADER && at != 0)
}
