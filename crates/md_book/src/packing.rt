//! An order in one number, as the map of open orders holds it.

ghost use Rattle.std.specs.Prelude.{◌≡◌};
ghost use Rattle.md_book.specs.Stands.{packed, account_in, level_in, left_in};

use crate::commands::Side;
use crate::limits::MAX_PRICE;

/// An order's account, side, price and what is left, packed in one number.
pub fn packed(account: u32, side: Side, price: u32, left: u32) -> u64
    ensures { result ≡ packed account side price left }
{
    let side = match side {
        Side::Buy => 0,
        Side::Sell => 1,
    };
    ((account as u64 * 2 + side) * 1024 + price as u64) * 1_048_576 + left as u64
}

/// The account of a packed order.
pub(crate) fn account_in(order: u64) -> u64
    ensures { result ≡ account_in order }
{
    order / 0x8000_0000
}

/// The level of a packed order.
pub fn level_in(order: u64) -> u64
    ensures { result ≡ level_in order }
{
    let side = order / 0x4000_0000 % 2;
    let price = order / 0x10_0000 % 1024;
    side * MAX_PRICE as u64 + price.saturating_sub(1)
}

/// What a packed order has left.
pub fn left_in(order: u64) -> u32
    ensures { result ≡ left_in order }
{
    (order % 0x10_0000) as u32
}
