//! Asking for an account's sums.

ghost use Rattle.std.specs.Prelude.{◌≡◌, ◌≤◌, None, IfOk, IfErr};
ghost use Rattle.md_history.specs.Playing.{PlaysPart};
ghost use Rattle.md_book.specs.Scripts.{look_account};

use crate::commands::BookReply;
use crate::maps::{BOUGHT, MAPS, SOLD};
use md_history::{Stop, TxCalls};

/// Looks an account's sums up.
pub(crate) fn look_account<T: TxCalls>(t: &mut T, account: u32) -> Result<BookReply, Stop>
    requires going { T.stop t.old ≡ None }
    requires maps { MAPS ≤ T.maps (T.kept t.old) }
    ensures plays { PlaysPart (look_account account) result T.acts T.stop t.old t.new }
    ensures kept { T.kept t.new ≡ T.kept t.old }
{
    let bought = t.get(BOUGHT, account as u64)?.unwrap_or(0);
    let sold = t.get(SOLD, account as u64)?.unwrap_or(0);
    Ok(BookReply::Account { bought, sold })
}
