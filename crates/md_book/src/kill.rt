//! Filling from resting orders the whole quantity, or nothing.

ghost use Rattle.std.specs.Prelude.{◌≡◌, ◌≤◌, take, None, IfOk, IfErr};
ghost use Rattle.md_history.specs.Playing.{PlaysPart};
ghost use Rattle.md_book.specs.Book.{IsPrice};
ghost use Rattle.md_book.specs.Killing.{have_left, kill};

use crate::commands::{BookReply, Side};
use crate::fill::fill;
use crate::limits::MAX_PARTS;
use crate::maps::{LEVELS, MAPS, OPEN_ORDERS};
use crate::packing::left_in;
use md_history::{Line, Stop, TxCalls};

/// The names that a look at a queue's first values found.
fn names_in(line: &Line) -> &[u64]
    ensures { result.now ≡ take line.now.count line.now.values }
{
    let count = (line.count as usize).min(line.values.len());
    &line.values[..count]
}

/// Whether the orders of these names have the quantity left in all. It looks one up after another,
/// until they have it.
fn have_left<T: TxCalls>(t: &mut T, quantity: u32, names: &[u64]) -> Result<bool, Stop>
    requires going { T.stop t.old ≡ None }
    requires maps { MAPS ≤ T.maps (T.kept t.old) }
    ensures plays { PlaysPart (have_left quantity names.now) result T.acts T.stop t.old t.new }
    ensures kept { T.kept t.new ≡ T.kept t.old }
{
    let mut lacking = quantity;
    for name in names {
        if lacking == 0 {
            break;
        }
        let order = t.get(OPEN_ORDERS, *name)?.unwrap_or(0);
        lacking = lacking.saturating_sub(left_in(order));
    }
    Ok(lacking == 0)
}

/// Looks at the first places of a level, and fills from them if they have the whole quantity left.
pub(crate) fn kill<T: TxCalls>(
    t: &mut T,
    account: u32,
    side: Side,
    price: u32,
    quantity: u32,
    places: u8,
) -> Result<BookReply, Stop>
    requires some { 1 ≤ places }
    requires room { places ≤ MAX_PARTS }
    requires price { IsPrice price }
    requires going { T.stop t.old ≡ None }
    requires maps { MAPS ≤ T.maps (T.kept t.old) }
    requires queues { LEVELS ≤ T.queues (T.kept t.old) }
    ensures plays { PlaysPart (kill account side price quantity places) result
        T.acts T.stop t.old t.new }
    ensures kept { T.kept t.new ≡ T.kept t.old }
{
    let line = t.line(side.level(price), places)?;
    if !have_left(t, quantity, names_in(&line))? {
        return Ok(BookReply::Killed);
    }
    fill(t, account, side, price, quantity, places)
}
