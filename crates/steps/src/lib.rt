// Document 02, Six: steps that add up. There is no code here: the laws of the signed step stand in specs/, proved in proofs/.
#![tactic(auto)]
