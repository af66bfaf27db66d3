//! The level of a side and a price.

ghost use Rattle.std.specs.Prelude.{◌≡◌, ◌<◌};
ghost use Rattle.md_book.specs.Book.{IsPrice, level_of};

use crate::commands::Side;
use crate::limits::MAX_PRICE;
use crate::maps::LEVELS;

impl Side {
    /// The level of a price, 1 to `MAX_PRICE`, at this side. Levels are numbered from 0: those of
    /// buy orders come first, by price, and those of sell orders follow.
    pub fn level(self, price: u32) -> u32
        requires { IsPrice price }
        ensures level { result ≡ level_of self price }
        ensures in_range { result < LEVELS }
    {
        match self {
            Side::Buy => price - 1,
            Side::Sell => MAX_PRICE + (price - 1),
        }
    }
}
