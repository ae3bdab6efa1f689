// The words of `convert`, `replay` and `frames`, and of `send`.
#![tactic(auto)]

pub mod reading;

ghost use Rattle.std.specs.Prelude.{◌≡◌, true};
ghost use Rattle.trace_arguments.specs.Words.{dashed, opening_of, Reads};

use sizes::{HeaderKind, Opening};

#[derive(Clone, Copy)]
pub enum Word {
    Sizes,
    Short,
    Stamp,
    // Two dashes and no name of an option.
    Unknown,
    File,
}

// What a word is.
pub fn word_of(w: &[u8]) -> Word
    ensures { Reads w.now result }
{
    if is_dashed(w) {
        return option(w);
    }
    Word::File
}

fn option(w: &[u8]) -> Word
    requires { dashed w.now ≡ true }
    ensures { Reads w.now result }
{
    if check::same(w, b"--sizes") {
        return Word::Sizes;
    }
    if check::same(w, b"--short") {
        return Word::Short;
    }
    if check::same(w, b"--stamp") {
        return Word::Stamp;
    }
    Word::Unknown
}

// Whether it has two dashes at its front.
fn is_dashed(w: &[u8]) -> bool
    ensures { result ≡ dashed w.now }
{
    if w.len() < 2 {
        return false;
    }
    if w[0] != 45 {
        return false;
    }
    w[1] == 45
}

// A session with these sizes, whose frames end by EOF, with the old kind of header.
pub fn opening(frame: u32, payload: u32) -> Opening
    ensures { result ≡ opening_of frame payload }
{
    Opening {
        frame: frame as usize,
        payload: payload as usize,
        framing: 3,
        kind: HeaderKind::Old,
    }
}
