// The three demands, whole. There is no code here: they are one statement in specs/Demands.antt, proved in proofs/Proved.antt.
#![tactic(auto)]
