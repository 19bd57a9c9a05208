// The three demands as statements, and their proofs; there is no code here.
#![tactic(auto)]
