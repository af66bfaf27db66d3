//! The commands of the matching book, and their replies.

use crate::limits::MAX_LOOKS;
use md_book::Side;

/// A command of the matching book. As a body it needs a store with at least `MATCH_MAPS` maps and
/// `LEVELS` queues. In a store that stands for a book it reads at most `MATCH_READS` words, writes
/// at most `MATCH_WRITES` and takes at most `MATCH_NODES` nodes.
///
/// An account is from 1 to `MAX_ACCOUNT`, a price from 1 to `MAX_PRICE` (in ticks), and a quantity
/// from 1 to `MAX_QUANTITY`. An order's name is `caller * 2^32 + line`, with a caller from 1 to
/// `MAX_CALLER` and the line from 1 to `MAX_SCRIPT_LINE` at which that caller gave it.
#[derive(Clone, Copy, Debug, PartialEq, Eq)]
pub enum MatchCommand {
    /// A limit order. It takes from the other side, the best price first and at each price the
    /// oldest order first, at no price that is worse than its own. It looks at no more than
    /// `MAX_LOOKS` places, and the place of a cancelled order is one of them. What remains then is
    /// placed as an order of this name, if no order of the other side can still be taken from.
    /// Otherwise it is dropped. The name is that of no other order.
    Match {
        name: u64,
        account: u32,
        side: Side,
        price: u32,
        quantity: u32,
    },
    /// Cancels an order: takes what is left of it out of the book. There may be no such order.
    Cancel {
        name: u64,
    },
    /// Asks for what is left at a side and a price.
    Depth {
        side: Side,
        price: u32,
    },
}

/// The order's name, the price at which it rested, and the quantity that was taken from it, 1 to
/// `MAX_QUANTITY`. All are 0 in a part that isn't used.
#[derive(Clone, Copy, Debug, PartialEq, Eq)]
pub struct At {
    pub name: u64,
    pub price: u32,
    pub taken: u32,
}

/// The reply to a command of the matching book.
#[derive(Clone, Copy, Debug, PartialEq, Eq)]
pub enum MatchReply {
    /// To a match: the quantities that were taken, placed and dropped, which add up to its own, and
    /// the parts in the order in which they were taken. The parts after the first `count` are zero.
    Matched {
        taken: u32,
        placed: u32,
        dropped: u32,
        count: u8,
        parts: [At; MAX_LOOKS],
    },
    /// To a cancel: the quantity that was left of the order.
    Cancelled(u32),
    /// To a cancel: the order has nothing left, or there is no order with the name.
    Gone,
    /// To a depth: the sum of what is left at the side and price.
    Depth(u64),
}
