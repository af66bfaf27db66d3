//! The limits of matching commands: how many places a match looks at, and how much commands read,
//! write and take.

/// How many places a match looks at, at most, and so the most parts that it takes.
pub const MAX_LOOKS: usize = 4;

/// The most words that a matching command reads.
pub const MATCH_READS: u32 = 40;

/// The most words that a matching command writes.
pub const MATCH_WRITES: u32 = 93;

/// The most nodes that a matching command takes.
pub const MATCH_NODES: u32 = 18;

/// The most orders that a matching book is made for: as many as an order file has lines.
pub const MATCH_ORDERS: u32 = 1_000_000;

/// The most nodes that the contents of a book of `MATCH_ORDERS` orders need.
pub const MATCH_CONTENTS: u32 = 2_025_000;
