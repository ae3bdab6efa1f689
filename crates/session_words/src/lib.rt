// A session's words, as a host in C keeps them, and what it is told of a call. Each rest of a session has one form in words; words of no form are refused.
#![tactic(auto)]

pub mod telling;
pub mod words;

use session_rules::Rest;

// Nine words that are left of the ledger's forty, and ten of the session's state.
pub type Words = [u64; 19];

// What words are read as: the number by which they are refused, or the rest that they are laid out from.
#[derive(Drop)]
pub enum Read {
    Broken(u8),
    Laid(Rest),
}

// What C is told: a refusal's number; or the reason of a frame that the call ended, the transfer's fate and its own reason or number; flags; a frame's layer,
// length and stamp.
#[repr(C)]
#[derive(Clone, Copy)]
pub struct Told {
    pub refused: u8,
    pub ended: u8,
    pub fate: u8,
    pub detail: u8,
    pub flags: u8,
    pub zero: u8,
    pub layer: u16,
    pub length: u32,
    pub stamp: u32,
}
