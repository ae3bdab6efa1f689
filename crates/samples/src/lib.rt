// The samples that document 01 marks for proof. There is no code here: the table is one statement in specs/Table.antt, proved in proofs/Proved.antt.
#![tactic(auto)]
