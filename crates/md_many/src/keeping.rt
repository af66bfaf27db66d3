//! Handing replies to whoever keeps them.

ghost use Rattle.std.specs.Prelude.{◌≡◌, ◌<◌, ◌≤◌, ◌+◌, ◌^◌, [], ℕ, length, OnOk};
ghost use Rattle.md_many.specs.Laws.{AllSuit};
ghost use Rattle.md_many_attempts.specs.ByCaller.{at_caller};
ghost use Rattle.md_many.specs.Rounds.{replies_in};
ghost use Rattle.md_many.specs.Course.{KeepsMore, of_one};

use crate::keepers::Keeper;
use md_many_attempts::{Played, ReplyList};
use std::alloc::AllocError;

/// Hands a caller's replies over, and counts them.
pub(crate) fn keep_lines<R: Drop, K: Keeper<R>>(
    keeper: &mut K,
    done: &mut [u32],
    caller: u32,
    replies: K::List,
) -> Result<(), AllocError>
    requires from_1 { 1 ≤ caller }
    requires there { caller ≤ length done.old }
    requires suit { AllSuit (K.can_keep keeper.old caller)
        (at_caller 0 done.old caller) (K.List.listed replies) }
    requires few { at_caller 0 done.old caller + length (K.List.listed replies) < 2 ^ 32 }
    ensures can_keep { (other line : ℕ) (r : R) → K.can_keep keeper.old other line r
        → K.can_keep keeper.new other line r }
    ensures kept { OnOk result (KeepsMore (of_one caller (K.List.listed replies))
        (K.keeps keeper.old) (K.keeps keeper.new) done.old done.new) }
{
    let index = caller as usize - 1;
    let before = done[index];
    done[index] = before + replies.len();
    keeper.keep(caller, before, replies)
}

/// Hands over the replies of turns, caller by caller, and counts them.
pub(crate) fn keep_turns<R: Drop, K: Keeper<R>>(
    keeper: &mut K,
    done: &mut [u32],
    turns: Vec<Played<K::List>>,
) -> Result<(), AllocError>
    requires callers { length turns.items ≡ length done.old }
    requires few_callers { length done.old < 2 ^ 32 }
    requires suit { (caller : ℕ) → AllSuit (K.can_keep keeper.old caller)
        (at_caller 0 done.old caller) (at_caller [] (replies_in K.List.listed turns.items) caller) }
    requires few { (caller : ℕ) → at_caller 0 done.old caller
        + length (at_caller [] (replies_in K.List.listed turns.items) caller) < 2 ^ 32 }
    ensures can_keep { (other line : ℕ) (r : R) → K.can_keep keeper.old other line r
        → K.can_keep keeper.new other line r }
    ensures kept { OnOk result (KeepsMore (at_caller [] (replies_in K.List.listed turns.items))
        (K.keeps keeper.old) (K.keeps keeper.new) done.old done.new) }
{
    let mut caller = 0;
    'turns: for turn in turns {
        caller += 1;
        keep_lines(keeper, done, caller, turn.replies)?;
    }
    Ok(())
}
