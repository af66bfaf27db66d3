//! Entries of a history, and what becomes of them.

use crate::acts::Acts;

/// What became of a transaction that was ready. A fate that is decided never changes.
#[derive(Clone, Copy, Debug, PartialEq, Eq)]
pub enum Fate {
    /// It took effect whole.
    Committed,
    /// It had no effect.
    Aborted,
    /// It may still become either.
    Undecided,
}

/// A transaction that became ready, as a history holds it. Its place in the history is where it
/// became ready.
#[derive(Debug, Drop)]
pub struct Entry {
    /// The lane whose pass ran it.
    pub lane: u32,
    /// Its place among the entries of its lane, from 0.
    pub number: u64,
    /// The number that the caller gave to the attempt.
    pub tag: u64,
    /// What it did, in order.
    pub acts: Acts,
    /// Whether all that it read still stood when it became ready. If it didn't, the transaction
    /// can't commit.
    pub sound: bool,
}
