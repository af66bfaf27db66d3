//! Placing an order.

ghost use Rattle.std.specs.Prelude.{◌≡◌, ◌≤◌, None, IfOk, IfErr};
ghost use Rattle.md_history.specs.Playing.{PlaysPart};
ghost use Rattle.md_book.specs.Book.{IsPrice};
ghost use Rattle.md_book.specs.Scripts.{place};

use crate::commands::{BookReply, Side};
use crate::maps::{DEPTHS, LEVELS, MAPS, OPEN_ORDERS};
use crate::packing::packed;
use crate::parts::raise;
use md_history::{Stop, TxCalls};

/// Adds an order to the open ones, its name to its level's queue, and its quantity to the level's
/// depth.
pub(crate) fn place<T: TxCalls>(
    t: &mut T,
    name: u64,
    account: u32,
    side: Side,
    price: u32,
    quantity: u32,
) -> Result<BookReply, Stop>
    requires going { T.stop t.old ≡ None }
    requires price { IsPrice price }
    requires maps { MAPS ≤ T.maps (T.kept t.old) }
    requires queues { LEVELS ≤ T.queues (T.kept t.old) }
    ensures plays { PlaysPart (place name account side price quantity) result
        T.acts T.stop t.old t.new }
    ensures kept { T.kept t.new ≡ T.kept t.old }
{
    let level = side.level(price);
    let order = packed(account, side, price, quantity);
    t.insert(OPEN_ORDERS, name, order)?;
    t.enqueue(level, name)?;
    raise(t, DEPTHS, level as u64, quantity as u64)?;
    Ok(BookReply::Placed)
}
