//! Cancelling an order.

ghost use Rattle.std.specs.Prelude.{◌≡◌, ◌≤◌, None, IfOk, IfErr};
ghost use Rattle.md_history.specs.Playing.{PlaysPart};
ghost use Rattle.md_book.specs.Scripts.{cancel};

use crate::commands::BookReply;
use crate::maps::{DEPTHS, MAPS, OPEN_ORDERS};
use crate::packing::{left_in, level_in};
use crate::parts::lower;
use md_history::{Stop, TxCalls};

/// Removes an order from the open ones, and what was left of it from its level's depth. Its name
/// stays in the queue.
pub(crate) fn cancel<T: TxCalls>(t: &mut T, name: u64) -> Result<BookReply, Stop>
    requires going { T.stop t.old ≡ None }
    requires maps { MAPS ≤ T.maps (T.kept t.old) }
    ensures plays { PlaysPart (cancel name) result T.acts T.stop t.old t.new }
    ensures kept { T.kept t.new ≡ T.kept t.old }
{
    let Some(order) = t.remove(OPEN_ORDERS, name)? else {
        return Ok(BookReply::Gone);
    };
    let left = left_in(order);
    lower(t, DEPTHS, level_in(order), left as u64)?;
    Ok(BookReply::Cancelled(left))
}
