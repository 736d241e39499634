// Document 01's search tree as an instance of the search, and what it promises. This crate has no code: specs/ and proofs/ are all of it.
#![tactic(auto)]
