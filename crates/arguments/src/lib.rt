// Numbers as arguments: decimal digits.
#![tactic(auto)]

ghost use Rattle.std.specs.Prelude.{◌≡◌, ◌≤◌};
ghost use Rattle.arguments.specs.Digits.{number_of, number_or, byte_of};

// What stands for no number of 8 bits.
pub const NO_BYTE: u32 = 256;

// The number that decimal digits spell, none where they are no number from 0 to `most`. Zeros may stand in front.
pub fn read(word: &[u8], most: u32) -> Option<u32>
    ensures { result ≡ number_of most word.now }
{
    if word.len() == 0 {
        return None;
    }
    let mut value: u64 = 0;
    for d in word {
        if *d < 48 {
            return None;
        }
        if 57 < *d {
            return None;
        }
        value = value * 10 + (*d - 48) as u64;
        if (most as u64) < value {
            return None;
        }
    }
    Some(value as u32)
}

// The number, or `other` where there is none.
pub fn or_else(n: Option<u32>, other: u32) -> u32
    ensures { result ≡ number_or other n }
{
    n.unwrap_or(other)
}

// The number from 0 to 255 that decimal digits spell, or 256 where they spell none. (No Option: *no_number_as_255* tries the 256.)
pub fn byte_of(word: &[u8]) -> u32
    ensures { (result ≡ byte_of word.now) × (result ≤ 256) }
{
    or_else(read(word, 255), NO_BYTE)
}
