// The words of the call. No contract can say what they are.
ghost use Rattle.io.specs.Counts.{IsPrefixLen};

use std::env::{Env, FillError};

// How many words there are, the program's own name among them.
pub fn count<R: Env>(rt: &R) -> usize {
    let mut none = [0u8; 1];
    for i in 0..usize::MAX {
        if let Err(FillError::NotPresent) = rt.arg(i, &mut none) {
            return i;
        }
    }
    usize::MAX
}

// Puts word `i` at the start of the lent buffer, and answers its length: 0 where there is no such word, or it is too long.
pub fn word<R: Env>(rt: &R, i: usize, buf: &mut [u8]) -> usize
    ensures { IsPrefixLen result buf.new }
{
    match rt.arg(i, buf) {
        Ok(n) => n,
        Err(_) => 0,
    }
}
