// The bits of a word, from 0. A narrower number is a word too.
#![tactic(auto)]

ghost use Rattle.std.specs.Prelude.{◌≡◌, ◌<◌};
ghost use Rattle.bits.specs.Bits.{width, has_bit, with_bit};

// The bits of a word.
pub const WIDTH: usize = 64;

// Inner: bit j is one of the word's. Whether it is set.
pub fn has(x: u64, j: usize) -> bool
    requires { j < width }
    ensures { result ≡ has_bit x j }
{
    (x >> j) % 2 == 1
}

// Inner: bit j is one of the word's. The word with this bit set too.
pub fn with(x: u64, j: usize) -> u64
    requires { j < width }
    ensures { result ≡ with_bit x j }
{
    x | (1u64 << j)
}
