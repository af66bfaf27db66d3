//! Fills and kills on the plain book.

use crate::books::{Book, Sums, level_of};
use md_book::{BookReply, MAX_PARTS, Part, Side};
use std::alloc::AllocError;

// What was taken from an order, and the side of the order.
#[derive(Clone, Copy)]
struct Trade {
    side: Side,
    resting: u32,
    taker: u32,
    taken: u32,
}

impl Book {
    // The places of a level that a fill looks at: their numbers among the orders.
    fn first_places(&self, level: u32, places: u8) -> Result<Vec<usize>, AllocError> {
        let mut first = Vec::new(*self.orders.allocator());
        for (at, order) in self.orders.iter().enumerate() {
            let open = !order.passed && level_of(order.side, order.price) == level;
            if open && first.len() < places as usize {
                first.push(at)?;
            }
        }
        Ok(first)
    }

    // Adds to the sums of an account.
    fn add(&mut self, account: u32, bought: u32, sold: u32) -> Result<(), AllocError> {
        let before = self.sums(account);
        let sums = Sums {
            bought: before.bought.saturating_add(u64::from(bought)),
            sold: before.sold.saturating_add(u64::from(sold)),
        };
        self.accounts.insert(account, sums)?;
        Ok(())
    }

    // Books a trade: at a buy order the resting account bought, at a sell order the taker.
    fn trade(&mut self, trade: Trade) -> Result<(), AllocError> {
        let (buyer, seller) = match trade.side {
            Side::Buy => (trade.resting, trade.taker),
            Side::Sell => (trade.taker, trade.resting),
        };
        self.add(buyer, trade.taken, 0)?;
        self.add(seller, 0, trade.taken)
    }

    // Takes at most `rest` from the order at a place, and passes the place if nothing is left
    // there.
    fn take(&mut self, at: usize, taker: u32, rest: u32) -> Result<Part, AllocError> {
        let Some(order) = self.orders.get_mut(at) else {
            return Ok(Part { name: 0, taken: 0 });
        };
        let taken = order.left.min(rest);
        order.left = order.left.saturating_sub(taken);
        order.passed = order.left == 0;
        let (name, side, resting) = (order.name, order.side, order.account);
        if taken != 0 {
            self.trade(Trade {
                side,
                resting,
                taker,
                taken,
            })?;
        }
        Ok(Part { name, taken })
    }

    /// Takes a quantity from a level, the oldest orders first, from at most `places` places.
    pub(crate) fn fill(
        &mut self,
        account: u32,
        level: u32,
        quantity: u32,
        places: u8,
    ) -> Result<BookReply, AllocError> {
        let first = self.first_places(level, places)?;
        let mut rest = quantity;
        let mut count: u8 = 0;
        let mut parts = [Part { name: 0, taken: 0 }; MAX_PARTS];
        for at in first.iter() {
            if rest == 0 {
                break;
            }
            let part = self.take(*at, account, rest)?;
            rest = rest.saturating_sub(part.taken);
            if part.taken != 0 && (count as usize) < MAX_PARTS {
                parts[count as usize] = part;
                count += 1;
            }
        }
        Ok(BookReply::Filled {
            taken: quantity.saturating_sub(rest),
            rest,
            count,
            parts,
        })
    }

    /// Takes the whole quantity from those places, or nothing.
    pub(crate) fn kill(
        &mut self,
        account: u32,
        level: u32,
        quantity: u32,
        places: u8,
    ) -> Result<BookReply, AllocError> {
        let first = self.first_places(level, places)?;
        let mut left: u64 = 0;
        for at in first.iter() {
            let there = self.orders.get(*at).map_or(0, |order| order.left);
            left = left.saturating_add(u64::from(there));
        }
        if left < u64::from(quantity) {
            return Ok(BookReply::Killed);
        }
        self.fill(account, level, quantity, places)
    }
}
