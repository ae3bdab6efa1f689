// What the cases of the answers program are read by, and what their answers are printed by.
#![tactic(auto)]

pub mod input;
pub mod print;
