// Laws of lists and counts that the kit lacks. This crate has no code: specs/ and proofs/ are all of it.
#![tactic(auto)]
