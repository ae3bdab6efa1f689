// Integers as differences of natural numbers. There is no code here: the laws stand in proofs/.
#![tactic(auto)]
