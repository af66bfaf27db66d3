//! The maps and queues of a book.

use crate::limits::MAX_PRICE;

/// How many maps a book needs.
pub const MAPS: u32 = 4;

/// The map of open orders: the key is an order's name, and the value is the order packed in one
/// number.
pub const OPEN_ORDERS: u32 = 0;

/// The map of depths: the key is a level, and the value is the sum of what is left there. A level
/// with nothing left has no key.
pub const DEPTHS: u32 = 1;

/// The map of sums bought: the key is an account, and the value is what it bought in all. An
/// account that bought nothing has no key.
pub const BOUGHT: u32 = 2;

/// The map of sums sold: the key is an account, and the value is what it sold in all. An account
/// that sold nothing has no key.
pub const SOLD: u32 = 3;

/// How many levels there are: one for each price at each side. A book needs a queue for each.
pub const LEVELS: u32 = 2 * MAX_PRICE;
