//! The limits of a shape, and what follows from them.

/// The most lanes of a shape.
pub const LANES: u32 = 64;

/// The most reads, and the most writes, of a transaction: each descriptor has room for so many.
pub const SET: u8 = 128;

/// The most nodes of a lane.
pub const MAX_NODES: u32 = 8_388_608;

/// The most base nodes.
pub const MAX_BASE: u32 = 4_194_304;

/// The most attempts of a lane. Every `u32` is within this limit.
pub const MAX_TRIES: u32 = 4_294_967_295;

/// The most maps.
pub const MAX_MAPS: u32 = 16;

/// The most buckets of a map.
pub const MAX_BUCKETS: u32 = 1_048_576;

/// A number of buckets for few keys. For this number, for `MANY_BUCKETS` and for `MAX_BUCKETS`, the
/// head of a key's bucket is found without a division. Keys that differ by multiples of 2^32 lie
/// far apart by this number and by `MANY_BUCKETS`: 2^32 leaves a fifth of the one, and half of the
/// other.
pub const FEW_BUCKETS: u32 = 65_819;

/// A number of buckets for many keys.
pub const MANY_BUCKETS: u32 = 131_198;

/// The most queues.
pub const MAX_QUEUES: u32 = 4_096;

/// The most words of a field.
pub const MAX_WORDS: u64 = 134_217_728;

/// The words of a descriptor: its status, two for each read and three for each slot.
pub const DESC_WORDS: u32 = 1 + 2 * SET as u32 + 3 * SET as u32;
