//! The best price of a side, by its bits.

ghost use Rattle.std.specs.Prelude.{◌≡◌, ◌≤◌, ◌<◌, ◌+◌, ◌*◌, None, IfOk, IfErr, IfSome};
ghost use Rattle.md_history.specs.Playing.{PlaysPart};
ghost use Rattle.md_book.specs.Book.{IsPrice};
ghost use Rattle.md_match.specs.Matching.{opposite, reaches};
ghost use Rattle.md_match.specs.Stands.{word_key, summary_key};
ghost use Rattle.md_match.specs.Sweeping.{best_bit, within, find_best};

use crate::maps::{MATCH_MAPS, PRICE_BITS};
use md_book::{MAX_PRICE, Side};
use md_history::{Stop, TxCalls};

/// The side that an order of this side takes from.
pub(crate) fn opposite(side: Side) -> Side
    ensures { result ≡ opposite side }
{
    match side {
        Side::Buy => Side::Sell,
        Side::Sell => Side::Buy,
    }
}

/// Whether a price is as good as the limit of an order of a side, or better.
fn reaches(side: Side, limit: u32, price: u32) -> bool
    ensures { result ≡ reaches side limit price }
{
    match side {
        Side::Buy => price <= limit,
        Side::Sell => limit <= price,
    }
}

/// The key of a side's word that has the bits of 64 prices.
fn word_key(side: Side, word: u32) -> u64
    requires { word < 128 }
    ensures { result ≡ word_key side word }
{
    match side {
        Side::Buy => word as u64,
        Side::Sell => 16 + word as u64,
    }
}

/// The key of a side's summary.
fn summary_key(side: Side) -> u64
    ensures { result ≡ summary_key side }
{
    match side {
        Side::Buy => 32,
        Side::Sell => 33,
    }
}

/// The bit of the best price in a word of a side: the lowest for a sell side, the highest for a buy
/// side.
fn best_bit(side: Side, word: u64) -> u32
    ensures is { result ≡ best_bit side word }
    ensures low { result ≤ 64 }
{
    match side {
        Side::Buy => 63u32.saturating_sub(word.leading_zeros()),
        Side::Sell => word.trailing_zeros(),
    }
}

/// A price, if it reaches the limit.
fn within(side: Side, limit: u32, price: u32) -> Option<u32>
    requires { 1 ≤ price }
    ensures is { result ≡ within side limit price }
    ensures priced { IfSome result (λ p. IsPrice p) }
{
    if reaches(side, limit, price) && price <= MAX_PRICE {
        Some(price)
    } else {
        None
    }
}

/// The best price at which an order of a side can take from the other side, if one reaches its
/// limit. It takes two lookups, however many levels there are.
pub(crate) fn find_best<T: TxCalls>(t: &mut T, side: Side, limit: u32) -> Result<Option<u32>, Stop>
    requires going { T.stop t.old ≡ None }
    requires maps { MATCH_MAPS ≤ T.maps (T.kept t.old) }
    ensures plays { PlaysPart (find_best side limit) result T.acts T.stop t.old t.new }
    ensures kept { T.kept t.new ≡ T.kept t.old }
    ensures priced { IfOk result (λ best. IfSome best (λ p. IsPrice p)) }
{
    let from = opposite(side);
    let Some(summary) = t.get(PRICE_BITS, summary_key(from))? else {
        return Ok(None);
    };
    let word = best_bit(from, summary);
    let Some(bits) = t.get(PRICE_BITS, word_key(from, word))? else {
        return Ok(None);
    };
    let price = 64 * word + best_bit(from, bits) + 1;
    Ok(within(side, limit, price))
}
