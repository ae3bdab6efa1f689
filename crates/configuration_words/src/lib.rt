// Document 02, One, in words. There is no code here: when a configuration is accepted and by what it is refused, what an accepted one lists, and what is picked, stated
// in specs/ of what `configuration`, `settings` and `picking` promise, and proved in proofs/.
#![tactic(auto)]
