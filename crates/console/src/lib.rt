// What the programs share: the words of the call, files that they name, lines of print, and the status. No contract can say what is read or written.
#![tactic(auto)]

pub mod files;
pub mod print;
pub mod status;
pub mod words;
