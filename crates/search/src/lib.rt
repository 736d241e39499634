// The best-first search over abstract nodes. This crate has no code: specs/ and proofs/ are all of it.
#![tactic(auto)]
