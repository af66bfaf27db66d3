//! Loops over lists in bodies. This crate has no code, but definitions and laws for proofs.
//!
//! The script of a loop over a list is `try_fold` of `specs/Loops.antt`. `proofs/Looping.antt` has
//! the laws by which the proof of such a loop goes on.
#![tactic(auto)]
