// The cases of sessions: a list of calls from an opening or from a record as it stands, and what each call answers, in full.
#![tactic(auto)]

pub mod calls;
pub mod forged;
pub mod recorded;
pub mod rooms;
mod shown;
