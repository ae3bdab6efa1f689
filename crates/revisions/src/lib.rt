// Document 02, Four: cameras of revisions 1.0, 1.1 and 1.5. There is no code here: what an accepted control block shows is what its own revision says, stated
// once over the three in specs/ and proved in proofs/.
#![tactic(auto)]
