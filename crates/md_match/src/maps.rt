//! The maps of a matching book.

/// How many maps a matching book needs: the four of a book, and one more.
pub const MATCH_MAPS: u32 = 5;

/// The map of price bits. For a side (buy 0, sell 1) and a price, bit `(price - 1) % 64` of the key
/// `16 * side + (price - 1) / 64` is set if the level has depth. Bit `w` of the key `32 + side` is
/// set if the key `16 * side + w` has a bit set. A word with no bit set has no key.
pub const PRICE_BITS: u32 = 4;
