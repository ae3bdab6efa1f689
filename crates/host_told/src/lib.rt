// What a C host is told of a verdict: one struct by value, in two registers.
#![tactic(auto)]

ghost use Rattle.std.specs.Prelude.{◌≡◌};
ghost use Rattle.host_told.specs.Told.{number_of, offset_of, verdict_told, unknown_told};

use rules::{Refused, Verdict};

// The number of the first broken rule and the place that breaks it; all 0 for accepted.
#[repr(C)]
#[derive(Drop)]
pub struct Told {
    pub number: u32,
    pub zero: u32,
    pub offset: usize,
}

pub fn tell(verdict: Verdict) -> Told
    ensures { result ≡ verdict_told verdict }
{
    Told {
        number: number_of(verdict) as u32,
        zero: 0,
        offset: offset_of(verdict),
    }
}

// Ours: the number of a call whose argument is none of those that it knows.
pub const UNKNOWN: u32 = 200;

pub fn unknown() -> Told
    ensures { result ≡ unknown_told }
{
    Told {
        number: UNKNOWN,
        zero: 0,
        offset: 0,
    }
}

// A refusal's number; 0 for accepted.
pub fn number_of(verdict: Verdict) -> u8
    ensures { result ≡ number_of verdict }
{
    match verdict {
        Ok(()) => 0,
        Err(Refused { number, offset: _ }) => number,
    }
}

// A refusal's place; 0 for accepted.
pub fn offset_of(verdict: Verdict) -> usize
    ensures { result ≡ offset_of verdict }
{
    match verdict {
        Ok(()) => 0,
        Err(Refused { number: _, offset }) => offset,
    }
}
