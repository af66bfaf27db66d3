//! Contents like those of an order book.

ghost use Rattle.std.specs.Prelude.{IfOk, OnOk};
ghost use Rattle.md_book.specs.Stands.{IsBookSized};

use md_book::{
    BOUGHT, DEPTHS, LEVELS, MAPS, MAX_ACCOUNT, MAX_CALLER, OPEN_ORDERS, SOLD, order_name,
};
use md_history::Contents;
use std::alloc::{AllocError, Global};

/// Each order has a pair in the map of open orders and a value in the queue of its level; each
/// level has a pair in the map of depths, and each account one in each map of sums.
pub(crate) fn contents_for(alloc: Global, orders: u32) -> Result<Contents, AllocError>
    ensures { IfOk result IsBookSized }
{
    let mut contents = Contents::empty(alloc, MAPS, LEVELS)?;
    add_orders(&mut contents, orders)?;
    for level in 0..LEVELS {
        contents.put(DEPTHS, u64::from(level), u64::MAX)?;
    }
    for account in 1..=MAX_ACCOUNT {
        contents.put(BOUGHT, u64::from(account), u64::MAX)?;
        contents.put(SOLD, u64::from(account), u64::MAX)?;
    }
    Ok(contents)
}

// A pair and a queued value for each order. The names of orders lie apart, as those of callers do.
fn add_orders(contents: &mut Contents, orders: u32) -> Result<(), AllocError>
    requires { IsBookSized contents.old }
    ensures { OnOk result (IsBookSized contents.new) }
{
    for order in 0..orders {
        let name = order_name(order % MAX_CALLER + 1, order);
        contents.put(OPEN_ORDERS, name, u64::MAX)?;
        contents.push(order % LEVELS, name)?;
    }
    Ok(())
}
