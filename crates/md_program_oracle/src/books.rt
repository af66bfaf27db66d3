//! The order book as plain data, on which commands are tried.
//!
//! It is written apart from the commands of md_book, from what docs/order-files.md says of them.

use md_book::{BookReply, Command, MAX_PRICE, Side};
use md_history::Contents;
use std::alloc::{AllocError, Global};
use std::collections::{BTreeMap, VecDeque};

/// An order that was placed.
#[derive(Clone, Copy, Debug, PartialEq, Eq)]
pub struct Order {
    pub name: u64,
    pub account: u32,
    pub side: Side,
    pub price: u32,
    /// What is left of it.
    pub left: u32,
    /// Whether a fill passed its place.
    pub passed: bool,
}

/// The quantities that an account bought and sold in all.
#[derive(Clone, Copy, Debug, PartialEq, Eq)]
pub struct Sums {
    pub bought: u64,
    pub sold: u64,
}

/// A book: its orders, level by level, those of a level in the order in which they were placed, and
/// the sums of the accounts that traded. In which order orders of different levels were placed
/// makes no difference to it.
#[derive(Clone, Debug, PartialEq, Eq, Drop)]
pub struct Book {
    pub(crate) orders: Vec<Order>,
    pub(crate) accounts: BTreeMap<u32, Sums>,
}

/// The number of a level, as the contents of a store number it.
pub fn level_of(side: Side, price: u32) -> u32 {
    let above = price.saturating_sub(1);
    match side {
        Side::Buy => above,
        Side::Sell => MAX_PRICE.saturating_add(above),
    }
}

// An order in one number, as the map of open orders has it.
fn packed(order: &Order) -> u64 {
    let side = match order.side {
        Side::Buy => 0,
        Side::Sell => 1,
    };
    let place = (u64::from(order.account) * 2 + side) * 1_024 + u64::from(order.price);
    place
        .wrapping_mul(1_048_576)
        .wrapping_add(u64::from(order.left))
}

// Puts a sum into a map that leaves out zeros.
fn put(map: &mut BTreeMap<u64, u64>, key: u64, sum: u64) -> Result<(), AllocError> {
    if sum != 0 {
        map.insert(key, sum)?;
    }
    Ok(())
}

impl Book {
    /// A book without orders. It takes no memory.
    pub fn empty(alloc: Global) -> Book {
        Book {
            orders: Vec::new(alloc),
            accounts: BTreeMap::new(alloc),
        }
    }

    /// Does a command, and returns its reply. It goes through all orders. `AllocError` if memory
    /// runs out; then the book may be changed in part.
    pub fn play(&mut self, command: &Command) -> Result<BookReply, AllocError> {
        match *command {
            Command::Place {
                name,
                account,
                side,
                price,
                quantity,
            } => self.place(Order {
                name,
                account,
                side,
                price,
                left: quantity,
                passed: false,
            }),
            Command::Cancel { name } => Ok(self.cancel(name)),
            Command::Fill {
                account,
                side,
                price,
                quantity,
                places,
            } => self.fill(account, level_of(side, price), quantity, places),
            Command::Kill {
                account,
                side,
                price,
                quantity,
                places,
            } => self.kill(account, level_of(side, price), quantity, places),
            Command::Depth { side, price } => {
                Ok(BookReply::Depth(self.depth(level_of(side, price))))
            }
            Command::Account { account } => {
                let Sums { bought, sold } = self.sums(account);
                Ok(BookReply::Account { bought, sold })
            }
        }
    }

    /// The sums of an account. They are 0 if it hasn't traded.
    pub fn sums(&self, account: u32) -> Sums {
        let none = Sums { bought: 0, sold: 0 };
        self.accounts.get(&account).copied().unwrap_or(none)
    }

    /// Whether an order of this name was placed.
    pub fn has(&self, name: u64) -> bool {
        self.orders.iter().any(|order| order.name == name)
    }

    /// What is left at a level.
    pub(crate) fn depth(&self, level: u32) -> u64 {
        let mut depth: u64 = 0;
        for order in self.orders.iter() {
            if level_of(order.side, order.price) == level {
                depth = depth.saturating_add(u64::from(order.left));
            }
        }
        depth
    }

    // Puts an order behind those of its level.
    fn place(&mut self, order: Order) -> Result<BookReply, AllocError> {
        let level = level_of(order.side, order.price);
        let mut before: usize = 0;
        for (at, other) in self.orders.iter().enumerate() {
            if level_of(other.side, other.price) <= level {
                before = at.saturating_add(1);
            }
        }
        let before = before.min(self.orders.len());
        self.orders.insert(before, order)?;
        Ok(BookReply::Placed)
    }

    // Takes out what is left of an order.
    fn cancel(&mut self, name: u64) -> BookReply {
        for order in self.orders.iter_mut() {
            if order.name == name && order.left != 0 {
                let left = order.left;
                order.left = 0;
                return BookReply::Cancelled(left);
            }
        }
        BookReply::Gone
    }

    // The map of open orders that a store has for this book.
    fn open(&self, alloc: Global) -> Result<BTreeMap<u64, u64>, AllocError> {
        let mut open = BTreeMap::new(alloc);
        for order in self.orders.iter() {
            if order.left != 0 {
                open.insert(order.name, packed(order))?;
            }
        }
        Ok(open)
    }

    // And that of depths.
    fn depths(&self, alloc: Global) -> Result<BTreeMap<u64, u64>, AllocError> {
        let mut depths = BTreeMap::new(alloc);
        for order in self.orders.iter() {
            let level = level_of(order.side, order.price);
            put(&mut depths, u64::from(level), self.depth(level))?;
        }
        Ok(depths)
    }

    // And that of what each account bought, or sold.
    fn traded(&self, alloc: Global, side: Side) -> Result<BTreeMap<u64, u64>, AllocError> {
        let mut traded = BTreeMap::new(alloc);
        for (account, sums) in self.accounts.iter() {
            let sum = match side {
                Side::Buy => sums.bought,
                Side::Sell => sums.sold,
            };
            put(&mut traded, u64::from(*account), sum)?;
        }
        Ok(traded)
    }

    // Whether these are the maps that a store has for this book.
    fn has_maps(&self, alloc: Global, maps: &[BTreeMap<u64, u64>]) -> Result<bool, AllocError> {
        Ok(
            maps.len() == 4
                && maps.get(0) == Some(&self.open(alloc)?)
                && maps.get(1) == Some(&self.depths(alloc)?)
                && maps.get(2) == Some(&self.traded(alloc, Side::Buy)?)
                && maps.get(3) == Some(&self.traded(alloc, Side::Sell)?),
        )
    }

    // Whether the places of a level that no fill passed are these.
    fn stands_in(&self, level: usize, queue: &VecDeque<u64>) -> bool {
        let mut at: usize = 0;
        for order in self.orders.iter() {
            if !order.passed && level_of(order.side, order.price) as usize == level {
                if queue.get(at).copied() != Some(order.name) {
                    return false;
                }
                at = at.saturating_add(1);
            }
        }
        at == queue.len()
    }

    /// Whether the contents of a store are this book, to the last key and place. `AllocError` if
    /// memory runs out.
    pub fn is_in(&self, alloc: Global, contents: &Contents) -> Result<bool, AllocError> {
        if !self.has_maps(alloc, contents.maps())? {
            return Ok(false);
        }
        for (level, queue) in contents.queues().iter().enumerate() {
            if !self.stands_in(level, queue) {
                return Ok(false);
            }
        }
        Ok(true)
    }
}
