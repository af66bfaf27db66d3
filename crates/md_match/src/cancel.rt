//! Cancelling an order.

ghost use Rattle.std.specs.Prelude.{◌≡◌, ◌≤◌, None, IfOk, IfErr};
ghost use Rattle.md_history.specs.Playing.{PlaysPart};
ghost use Rattle.md_match.specs.Scripts.{cancel};

use crate::commands::MatchReply;
use crate::depths::lower_level;
use crate::maps::MATCH_MAPS;
use md_book::{OPEN_ORDERS, left_in, level_in};
use md_history::{Stop, TxCalls};

/// Removes an order from the open ones, and what was left of it from its level's depth. Its name
/// stays in the queue.
pub(crate) fn cancel<T: TxCalls>(t: &mut T, name: u64) -> Result<MatchReply, Stop>
    requires going { T.stop t.old ≡ None }
    requires maps { MATCH_MAPS ≤ T.maps (T.kept t.old) }
    ensures plays { PlaysPart (cancel name) result T.acts T.stop t.old t.new }
    ensures kept { T.kept t.new ≡ T.kept t.old }
{
    let Some(order) = t.remove(OPEN_ORDERS, name)? else {
        return Ok(MatchReply::Gone);
    };
    let left = left_in(order);
    lower_level(t, level_in(order), left as u64)?;
    Ok(MatchReply::Cancelled(left))
}
