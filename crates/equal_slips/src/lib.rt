// The rules with one k for all carriers, and that equal slips keep every answer. This crate has no code: specs/ and proofs/ are all of it.
#![tactic(auto)]
