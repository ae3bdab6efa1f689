// The cases of control, streaming and probe blocks: each is read from standard input, handed to its reader, and its answer printed in full.
#![tactic(auto)]

pub mod descriptors;
pub mod lines;
pub mod probes;
