// What the books say of the ledger in fixed places; no code.
#![tactic(auto)]
