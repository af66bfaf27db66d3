//! How an attempt at a transaction ends.

/// A word of a store that held one content and then another, which differs.
#[derive(Clone, Copy, Debug, PartialEq, Eq)]
pub struct Shown {
    /// The word's number.
    pub word: u32,
    /// What it held first.
    pub was: u64,
    /// What it held later.
    pub now: u64,
}

/// A limit of the store that an attempt met.
#[derive(Clone, Copy, Debug, PartialEq, Eq)]
pub enum Limit {
    /// It would have read more words than a transaction may.
    Reads,
    /// It would have written more words than a transaction may.
    Writes,
    /// Its pass has no node left.
    Nodes,
    /// Its pass has no attempt left.
    Tries,
    /// A word was changed so often that no new transaction may change it. `word` is the word's
    /// number in the store's field, and `count` is its count, which a change raises by 1 or 2.
    Worn { word: u32, count: u32 },
}

/// Why an attempt stopped.
#[derive(Clone, Copy, Debug, PartialEq, Eq)]
pub enum Stop {
    /// Another transaction came between; a word shows it.
    Conflict(Shown),
    /// A limit was met.
    Limit(Limit),
    /// The store ran out of memory.
    NoMemory,
}

/// The end of an attempt.
#[derive(Debug, PartialEq, Eq, Drop)]
pub enum Attempt<R> {
    /// It took effect whole, and its body replied.
    Committed(R),
    /// It had no effect, for this reason.
    Stopped(Stop),
}
