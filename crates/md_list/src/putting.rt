//! How a key's value is set.

ghost use Rattle.std.specs.Prelude.{◌≡◌, ◌<◌, ◌^◌, ℕ, IfOk, IfSome};
ghost use Rattle.md_words.specs.Layout.{IsNode};
ghost use Rattle.md_history.specs.declared.acts.Op.TheVariants.{Put};
ghost use Rattle.md_history.specs.declared.acts.Reply.TheVariants.{Value};
ghost use Rattle.md_history.specs.declared.stops.Limit.TheVariants.{Nodes, Reads, Writes};
ghost use Rattle.md_nbtc_law.specs.declared.seen.Kind.TheVariants.{Critical};
ghost use Rattle.md_nbtc_law.specs.Calls.{AfterStop, Exchanges, GoesOn, MayExchange};
ghost use Rattle.md_nbtc_law.specs.Calls.{exchange_case};
ghost use Rattle.md_nbtc_law.specs.Going.{IsUnderWay};
ghost use Rattle.md_nbtc_law.specs.Seeing.{Gave, KeepsGiven};
ghost use Rattle.md_nbtc_law.specs.State.{shape_in};
ghost use Rattle.md_nbtc.specs.State.{state};
ghost use Rattle.md_list_law.specs.ListShape.{next_word};
ghost use Rattle.md_list.specs.Operations.{Answers, HasStop, IsBegun, KeepsUnlink, OperationGoesOn};
ghost use Rattle.md_list.specs.Refusals.{NeedsNewNode, NeedsSlot, NotRefusedBy, RefusedBy};
ghost use Rattle.md_list.specs.Walking.{IsHeadOf};

use crate::insertion::take_node;
use crate::walk::{Found, find};
use md_history::Stop;
use md_list_law::HasLists;
use md_machine::Theory;
use md_nbtc::{Cleanup, Kind, Seen, Txn};

// Changes the next word of the node that was found to a value, as a part of the transaction.
#[inline(always)]
fn replace<'a, T: Theory>(tx: &mut Txn<'a, T>, found: Found, to: u32) -> Result<Seen, Stop>
    requires going { IsUnderWay T.meaning (state tx.old) }
    requires exists { IsNode (shape_in (state tx.old)) found.node }
    requires may { MayExchange T.meaning (state tx.old)
        (next_word (shape_in (state tx.old)) found.node) found.next to Critical }
    ensures pass { tx.new.pass.ghost_name ≡ tx.old.pass.ghost_name }
    ensures on { GoesOn T.meaning (state tx.old) (state tx.new) }
    ensures exchanged { let word : ℕ = next_word (shape_in (state tx.old)) found.node in
        AfterStop (state tx.old).stop (state tx.old) (state tx.new) result
        (Exchanges (exchange_case (state tx.old) word found.next Critical) T.meaning (state tx.old)
        (state tx.new) word found.next to result) }
    ensures given { KeepsGiven (state tx.old) (state tx.new)
        (next_word (shape_in (state tx.old)) found.node) }
    ensures gave { IfOk result (λ seen. Gave (state tx.new)
        (next_word (shape_in (state tx.old)) found.node) seen) }
{
    let next_word = tx.shape().node_next(found.node);
    tx.exchange(next_word, found.next, to, Kind::Critical)
}

/// Sets the value of a key of a map, and returns the value that it had, or `None` if the key wasn't
/// there, as an operation of a transaction that was just begun. `head` is the head of the key's own
/// bucket. The caller ends the operation with the result as the reply of a `Put` of the key and the
/// value.
///
/// It takes one node, and records no word. If the key is absent, it changes the word before the
/// key's place to name the new node. This word is the head, or the next word of the last node with
/// a smaller key. If the key is there, the next word of its node is changed to name the new node,
/// with a mark: so the new node takes the place of the old one. The unlink of the old node is kept
/// as a cleanup with that word, and is made when the transaction has committed. It writes at most
/// one word beside those of [`find`].
///
/// If a call inside is refused, it returns that stop, and the transaction keeps it:
///
/// - the stops of [`find`];
/// - `Conflict` if a word was changed by another pass, or was recorded with another content before;
/// - `Limit::Writes` if the operation needs one more written word, and 128 are written;
/// - `Limit::Nodes` if no lane of the pass has a node left;
/// - `Limit::Worn` if the next word of the new node, or the word to be changed, has a count of
///   4,294,967,292 or more.
///
/// It never returns `Limit::Reads`. If the transaction has stopped before, it returns the same stop
/// and does nothing.
///
/// It takes one [`find`], one step for the old value if the key is there, four steps for the node,
/// and four for the change, or one if the word is an own one. It takes no memory.
///
/// After the list of M. M. Michael, "High Performance Dynamic Lock-Free Hash Tables and List-Based
/// Sets" (2002), which has no such call, and the put of Cai, Wen and Scott's Medley (2023).
pub fn put<'a, T: HasLists>(
    tx: &mut Txn<'a, T>,
    head: u32,
    key: u64,
    value: u64,
) -> Result<Option<u64>, Stop>
    requires begun { IsBegun T.meaning (state tx.old) }
    requires head { (map : ℕ) × IsHeadOf (shape_in (state tx.old)) map key head }
    ensures pass { tx.new.pass.ghost_name ≡ tx.old.pass.ghost_name }
    ensures leaves { OperationGoesOn T.meaning (state tx.old) (state tx.new) 0 1 1 }
    ensures unlink { IfOk result (λ old. IfSome old (λ _. KeepsUnlink (state tx.new))) }
    ensures answer { IfOk result (λ old. Answers T.meaning (state tx.old) (state tx.new) head key
        (λ map. Put map key value) (Value old)) }
    ensures stops { AfterStop (state tx.old).stop (state tx.old) (state tx.new) result
        (HasStop (state tx.new) result) }
    ensures no_read { NotRefusedBy Reads (state tx.old) result }
    ensures no_slot { RefusedBy Writes T.meaning (state tx.old) (state tx.new) result
        (NeedsSlot T.meaning (state tx.old) head key (λ map. Put map key value)) }
    ensures no_node { RefusedBy Nodes T.meaning (state tx.old) (state tx.new) result
        (NeedsNewNode (state tx.old)) }
{
    let found = find(tx, head, key)?;
    if !found.here {
        let node = take_node(tx, key, value, found.at.value)?;
        tx.exchange(found.prev, found.at, node * 2, Kind::Critical)?;
        return Ok(None);
    }
    let value_word = tx.shape().node_value(found.node);
    let old = tx.field_of(value_word);
    let new_node = take_node(tx, key, value, found.next.value)?;
    replace(tx, found, new_node * 2 + 1)?;
    // The mark isn't decided yet, so the unlink waits for the commit.
    tx.later(Cleanup::Unlink {
        prev: found.prev,
        node: found.node,
    });
    Ok(Some(old))
}
