//! Matching an order.

ghost use Rattle.std.specs.Prelude.{◌≡◌, ◌≤◌, None, IfOk, IfErr};
ghost use Rattle.md_history.specs.Playing.{PlaysPart};
ghost use Rattle.md_book.specs.Book.{IsPrice};
ghost use Rattle.md_match.specs.Sweeping.{book_taker, place_rest, match_order};

use crate::best::opposite;
use crate::commands::MatchReply;
use crate::depths::raise_level;
use crate::maps::MATCH_MAPS;
use crate::sweeping::{Sweep, sweep_levels};
use md_book::{LEVELS, OPEN_ORDERS, Side, packed, raise};
use md_history::{Stop, TxCalls};

/// Adds what was taken from a side in all to the taker's sum.
fn book_taker<T: TxCalls>(t: &mut T, side: Side, account: u32, taken: u32) -> Result<(), Stop>
    requires going { T.stop t.old ≡ None }
    requires maps { MATCH_MAPS ≤ T.maps (T.kept t.old) }
    ensures plays { PlaysPart (book_taker side account taken) result T.acts T.stop t.old t.new }
    ensures kept { T.kept t.new ≡ T.kept t.old }
{
    if taken != 0 {
        raise(t, side.taker_sums(), account as u64, taken as u64)?;
    }
    Ok(())
}

/// Places what remains, if no price is left: adds an order to the open ones, its name to its
/// level's queue, and its quantity to the level's depth. Returns the quantity that was placed.
fn place_rest<T: TxCalls>(
    t: &mut T,
    name: u64,
    account: u32,
    side: Side,
    price: u32,
    sweep: &Sweep,
) -> Result<u32, Stop>
    requires going { T.stop t.old ≡ None }
    requires price { IsPrice price }
    requires maps { MATCH_MAPS ≤ T.maps (T.kept t.old) }
    requires queues { LEVELS ≤ T.queues (T.kept t.old) }
    ensures plays { PlaysPart (place_rest name account side price sweep.now) result
        T.acts T.stop t.old t.new }
    ensures kept { T.kept t.new ≡ T.kept t.old }
    ensures placed { IfOk result (λ placed. placed ≤ sweep.now.rest) }
{
    let rest = sweep.rest;
    if !sweep.clear {
        return Ok(0);
    }
    let level = side.level(price);
    let order = packed(account, side, price, rest);
    t.insert(OPEN_ORDERS, name, order)?;
    t.enqueue(level, name)?;
    raise_level(t, level as u64, rest as u64)?;
    Ok(rest)
}

/// Takes from the other side what reaches the limit, and places or drops what remains.
pub(crate) fn match_order<T: TxCalls>(
    t: &mut T,
    name: u64,
    account: u32,
    side: Side,
    price: u32,
    quantity: u32,
) -> Result<MatchReply, Stop>
    requires price { IsPrice price }
    requires going { T.stop t.old ≡ None }
    requires maps { MATCH_MAPS ≤ T.maps (T.kept t.old) }
    requires queues { LEVELS ≤ T.queues (T.kept t.old) }
    ensures plays { PlaysPart (match_order name account side price quantity) result
        T.acts T.stop t.old t.new }
    ensures kept { T.kept t.new ≡ T.kept t.old }
{
    let swept = sweep_levels(t, side, price, quantity)?;
    let taken = quantity - swept.rest;
    book_taker(t, opposite(side), account, taken)?;
    let placed = place_rest(t, name, account, side, price, &swept)?;
    Ok(MatchReply::Matched {
        taken,
        placed,
        dropped: swept.rest - placed,
        count: swept.count,
        parts: swept.parts,
    })
}
