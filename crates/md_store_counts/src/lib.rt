//! How many different words a transaction over the store records and changes, and how many nodes it
//! places, by its acts alone. These are laws on the certificates of its operations, with no
//! transaction, no pass and no step.
//!
//! The certificates stand one after another from a valid heap. Then, by the counts of their acts:
//!
//! 1. They place exactly as many nodes as there were pairs and values added.
//! 2. They record at most `reads` different words, if an operation on a map records one word at
//!    most, and none if it changed something.
//! 3. They change at most `writes` different words, if also each of their tidy changes is charged:
//!    its word was recorded or changed before, or is a new node's; or the next word of the node
//!    that it passes over was changed before. Michael's list and Michael and Scott's queue make
//!    other tidy changes by plain exchanges, which are in no certificate.
#![tactic(auto)]

pub use counts::{certificates_are_few, worked_counts};

mod counts;
