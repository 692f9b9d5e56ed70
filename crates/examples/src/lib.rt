// Statements and proofs only: the crate has no code.
#![tactic(auto)]
