// What every reader answers with. The definitions and laws that the readers share stand in specs/ and proofs/.
#![tactic(auto)]

// The number of the first broken rule, and the place that breaks it.
#[derive(Clone, Copy)]
pub struct Refused {
    pub number: u8,
    pub offset: usize,
}

// Accepted, or refused.
pub type Verdict = Result<(), Refused>;
