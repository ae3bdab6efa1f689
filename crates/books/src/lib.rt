// The books: the frame rule from the list alone, and the theorems that the session keeps to it. There is no code here: the rule stands in specs/Rule.antt,
// what is demanded in specs/Statement.antt, one field for each sentence, and its proof in proofs/Proved.antt.
#![tactic(auto)]
