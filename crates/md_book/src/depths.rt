//! Asking for a depth.

ghost use Rattle.std.specs.Prelude.{◌≡◌, ◌≤◌, None, IfOk, IfErr};
ghost use Rattle.md_history.specs.Playing.{PlaysPart};
ghost use Rattle.md_book.specs.Book.{IsPrice};
ghost use Rattle.md_book.specs.Scripts.{look_depth};

use crate::commands::{BookReply, Side};
use crate::maps::{DEPTHS, MAPS};
use md_history::{Stop, TxCalls};

/// Looks a level's depth up.
pub(crate) fn look_depth<T: TxCalls>(t: &mut T, side: Side, price: u32) -> Result<BookReply, Stop>
    requires going { T.stop t.old ≡ None }
    requires price { IsPrice price }
    requires maps { MAPS ≤ T.maps (T.kept t.old) }
    ensures plays { PlaysPart (look_depth side price) result T.acts T.stop t.old t.new }
    ensures kept { T.kept t.new ≡ T.kept t.old }
{
    let level = side.level(price);
    let depth = t.get(DEPTHS, level as u64)?;
    Ok(BookReply::Depth(depth.unwrap_or(0)))
}
