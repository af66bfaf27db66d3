//! The limits of commands: the ranges of their numbers, and how much they read, write and take.

/// How many places of a level a fill or a kill of version 1 of the order file looks at, at most.
pub const PLACES_IN_VERSION_1: u8 = 4;

/// How many places of a level a fill or a kill of version 2 of the order file looks at, at most.
pub const PLACES_IN_VERSION_2: u8 = 12;

/// The most parts that a fill can take: one from each place that it looks at.
pub const MAX_PARTS: usize = PLACES_IN_VERSION_2 as usize;

/// The greatest caller. Callers are numbered from 1.
pub const MAX_CALLER: u32 = 64;

/// The greatest line of a caller. Lines are numbered from 1.
pub const MAX_SCRIPT_LINE: u32 = 1_000_000;

/// The greatest account. Accounts are numbered from 1.
pub const MAX_ACCOUNT: u32 = 9_999;

/// The greatest price, in ticks. The lowest is 1.
pub const MAX_PRICE: u32 = 1_000;

/// The greatest quantity of an order, a fill or a kill. The lowest is 1.
pub const MAX_QUANTITY: u32 = 1_000_000;

/// The most words that a command reads.
pub const COMMAND_READS: u32 = 39;

/// The most words that a command writes.
pub const COMMAND_WRITES: u32 = 82;

/// The most nodes that a command takes.
pub const COMMAND_NODES: u32 = 15;
