//! Stalled transactions: passes that put their descriptors into a word and go no further, and
//! passes that take them out again and go on. Nobody waits for a transaction that stalls.
//!
//! The field is one of the cell, and the word is the cell's.
#![tactic(auto)]

pub use inserting::insert;
pub use meeting::{Met, meet};
pub use stalling::stall;

mod inserting;
mod meeting;
mod stalling;
