// The marks of the repeated-ID test: a set of IDs, kept as the bits of four words. Nothing outside this crate knows how.
#![tactic(auto)]

ghost use Rattle.std.specs.Prelude.{◌≡◌};
ghost use Rattle.used_ids.specs.Marks.{no_marks, marked, with_mark};

use bits::WIDTH;

// Four words have a bit for each of 256 IDs.
const WORDS: usize = 4;

pub type Marks = [u64; WORDS];

// No ID is marked.
pub fn none() -> Marks
    ensures { result ≡ no_marks }
{
    [0u64; WORDS]
}

pub fn has(m: &Marks, id: u8) -> bool
    ensures { result ≡ marked m.now id }
{
    let i = le::wide(id);
    bits::has(m[i / WIDTH], i % WIDTH)
}

// The ID is marked too.
pub fn with(m: &mut Marks, id: u8)
    ensures { m.new ≡ with_mark m.old id }
{
    let i = le::wide(id);
    let word = m[i / WIDTH];
    m[i / WIDTH] = bits::with(word, i % WIDTH);
}
