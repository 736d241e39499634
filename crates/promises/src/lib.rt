// What the archive asked for, in one place: specs/Promises.antt has the statements, proofs/Kept.antt their proofs. This crate has no code.
#![tactic(auto)]
