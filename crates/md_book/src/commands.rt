//! The commands of the order book, and their replies.

use crate::limits::MAX_PARTS;

/// A side of the book.
#[derive(Clone, Copy, Debug, PartialEq, Eq)]
pub enum Side {
    /// Orders to buy. A fill or a kill at this side sells to them.
    Buy,
    /// Orders to sell. A fill or a kill at this side buys from them.
    Sell,
}

/// A command of the order book. As a body it needs a store with at least `MAPS` maps and `LEVELS`
/// queues. In a store that stands for a book it reads at most `COMMAND_READS` words, writes at most
/// `COMMAND_WRITES` and takes at most `COMMAND_NODES` nodes.
///
/// An account is from 1 to `MAX_ACCOUNT`, a price from 1 to `MAX_PRICE` (in ticks), and a quantity
/// from 1 to `MAX_QUANTITY`. An order's name is `caller * 2^32 + line`, with a caller from 1 to
/// `MAX_CALLER` and the line from 1 to `MAX_SCRIPT_LINE` at which that caller placed it. Each order
/// at a level has a place in the level's queue. `places` is how many of them a fill or a kill looks
/// at, at most: `PLACES_IN_VERSION_1` or `PLACES_IN_VERSION_2`.
#[derive(Clone, Copy, Debug, PartialEq, Eq)]
pub enum Command {
    /// Places an order. Its name is that of no other order.
    Place {
        name: u64,
        account: u32,
        side: Side,
        price: u32,
        quantity: u32,
    },
    /// Cancels an order: takes what is left of it out of the book. There may be no such order.
    Cancel {
        name: u64,
    },
    /// Takes from the orders that rest at a side and a price, the oldest first, for an account. It
    /// looks at no more than `places` places, and the place of a cancelled order is one of them.
    Fill {
        account: u32,
        side: Side,
        price: u32,
        quantity: u32,
        places: u8,
    },
    /// Fill or kill: if the places that a fill would look at have its whole quantity, it takes as
    /// the fill does. Otherwise it changes nothing.
    Kill {
        account: u32,
        side: Side,
        price: u32,
        quantity: u32,
        places: u8,
    },
    /// Asks for what is left at a side and a price.
    Depth {
        side: Side,
        price: u32,
    },
    /// Asks for what an account bought and sold.
    Account {
        account: u32,
    },
}

/// The order's name, and the quantity that was taken from it, 1 to `MAX_QUANTITY`. Both are 0 in a
/// part that isn't used.
#[derive(Clone, Copy, Debug, PartialEq, Eq)]
pub struct Part {
    pub name: u64,
    pub taken: u32,
}

/// The reply to a command.
#[derive(Clone, Copy, Debug, PartialEq, Eq)]
pub enum BookReply {
    /// To a place: the order stands in the book.
    Placed,
    /// To a cancel: the quantity that was left of the order.
    Cancelled(u32),
    /// To a cancel: the order has nothing left, or there is no order with the name.
    Gone,
    /// To a kill: the places that it looks at have less left than its quantity. Nothing changed.
    Killed,
    /// To a fill, or to a kill that took its quantity: the quantity that was taken in all, the
    /// quantity that remains, and the parts in the order of their places. The parts after the first
    /// `count` are zero.
    Filled {
        taken: u32,
        rest: u32,
        count: u8,
        parts: [Part; MAX_PARTS],
    },
    /// To a depth: the sum of what is left at the side and price.
    Depth(u64),
    /// To an account: the sums of the quantities that it bought and sold.
    Account {
        bought: u64,
        sold: u64,
    },
}
