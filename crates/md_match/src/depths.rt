//! The depths of levels, and their price bits with them.

ghost use Rattle.std.specs.Prelude.{◌≡◌, ◌≤◌, ◌<◌, None, IfOk, IfErr};
ghost use Rattle.md_history.specs.Playing.{PlaysPart};
ghost use Rattle.md_book.specs.Book.{IsPrice};
ghost use Rattle.md_match.specs.Scripts.{raise_level, put_depth, lower_level, look_depth};

use crate::bits::{close_level, open_level};
use crate::commands::MatchReply;
use crate::maps::MATCH_MAPS;
use md_book::{DEPTHS, Side};
use md_history::{Stop, TxCalls};

/// Adds to a level's depth, at most up to the largest number. If it had none, it opens the level.
pub(crate) fn raise_level<T: TxCalls>(t: &mut T, level: u64, by: u64) -> Result<(), Stop>
    requires low { level < 4096 }
    requires going { T.stop t.old ≡ None }
    requires maps { MATCH_MAPS ≤ T.maps (T.kept t.old) }
    ensures plays { PlaysPart (raise_level level by) result T.acts T.stop t.old t.new }
    ensures kept { T.kept t.new ≡ T.kept t.old }
{
    let before = t.get(DEPTHS, level)?.unwrap_or(0);
    t.put(DEPTHS, level, before.saturating_add(by))?;
    if before != 0 {
        return Ok(());
    }
    open_level(t, level)
}

/// Gives a level a depth. If that is nothing, it removes the one that stands, and closes the level.
fn put_depth<T: TxCalls>(t: &mut T, level: u64, depth: u64) -> Result<(), Stop>
    requires low { level < 4096 }
    requires going { T.stop t.old ≡ None }
    requires maps { MATCH_MAPS ≤ T.maps (T.kept t.old) }
    ensures plays { PlaysPart (put_depth level depth) result T.acts T.stop t.old t.new }
    ensures kept { T.kept t.new ≡ T.kept t.old }
{
    if depth == 0 {
        t.remove(DEPTHS, level)?;
        return close_level(t, level);
    }
    t.put(DEPTHS, level, depth)?;
    Ok(())
}

/// Takes off a level's depth, at most down to 0. If nothing is left, it closes the level.
pub(crate) fn lower_level<T: TxCalls>(t: &mut T, level: u64, by: u64) -> Result<(), Stop>
    requires low { level < 4096 }
    requires going { T.stop t.old ≡ None }
    requires maps { MATCH_MAPS ≤ T.maps (T.kept t.old) }
    ensures plays { PlaysPart (lower_level level by) result T.acts T.stop t.old t.new }
    ensures kept { T.kept t.new ≡ T.kept t.old }
{
    let before = t.get(DEPTHS, level)?.unwrap_or(0);
    put_depth(t, level, before.saturating_sub(by))
}

/// Looks a level's depth up.
pub(crate) fn look_depth<T: TxCalls>(t: &mut T, side: Side, price: u32) -> Result<MatchReply, Stop>
    requires going { T.stop t.old ≡ None }
    requires price { IsPrice price }
    requires maps { MATCH_MAPS ≤ T.maps (T.kept t.old) }
    ensures plays { PlaysPart (look_depth side price) result T.acts T.stop t.old t.new }
    ensures kept { T.kept t.new ≡ T.kept t.old }
{
    let level = side.level(price);
    let depth = t.get(DEPTHS, level as u64)?;
    Ok(MatchReply::Depth(depth.unwrap_or(0)))
}
