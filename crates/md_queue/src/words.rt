//! The words of a queue: its tail, and those of its nodes.

ghost use Rattle.std.specs.Prelude.{◌≡◌, ◌<◌, ◌+◌, ◌^◌, ℕ, IfOk, true};
ghost use Rattle.md_nbtc_law.specs.declared.seen.Kind.TheVariants.{Critical};
ghost use Rattle.md_nbtc_law.specs.Calls.{AfterStop, Exchanges, FreshKeepsGiven, Freshened};
ghost use Rattle.md_nbtc_law.specs.Calls.{GoesOn, Keeps, Looked, Notes};
ghost use Rattle.md_nbtc_law.specs.Calls.{exchange_case, note_case};
ghost use Rattle.md_nbtc_law.specs.Cleaning.{with_cleanup_kept};
ghost use Rattle.md_nbtc_law.specs.Going.{IsUnderWay};
ghost use Rattle.md_nbtc_law.specs.Known.{Known};
ghost use Rattle.md_nbtc_law.specs.Seeing.{Gave, KeepsGiven};
ghost use Rattle.md_nbtc.specs.State.{state};
ghost use Rattle.md_queue_law.specs.QueueShape.{link};
ghost use Rattle.md_queue.specs.Nodes.{MayLink, MayLook, MayMove, MayMoveLater, MayNote, MayRead};
ghost use Rattle.md_queue.specs.Words.{move_kind, next_at, tail_at, tail_move};

use md_history::Stop;
use md_machine::Theory;
use md_nbtc::{Cleanup, Kind, Seen, Txn};

// Looks at the next word of a node.
#[inline(always)]
pub(crate) fn load_next<'a, T: Theory>(tx: &mut Txn<'a, T>, node: u32) -> Result<Seen, Stop>
    requires may { MayLook T.meaning (state tx.old) node }
    ensures pass { tx.new.pass.ghost_name ≡ tx.old.pass.ghost_name }
    ensures on { GoesOn T.meaning (state tx.old) (state tx.new) }
    ensures looked { AfterStop (state tx.old).stop (state tx.old) (state tx.new) result
        (Looked T.meaning (state tx.old) (state tx.new) (next_at (state tx.old) node) result) }
    ensures given { KeepsGiven (state tx.old) (state tx.new) (next_at (state tx.old) node) }
{
    let next_word = tx.shape().node_next(node);
    tx.load(next_word)
}

// Records what was seen in the next word of a node.
#[inline(always)]
pub(crate) fn note_next<'a, T: Theory>(
    tx: &mut Txn<'a, T>,
    node: u32,
    next: Seen,
) -> Result<(), Stop>
    requires may { MayNote T.meaning (state tx.old) node next }
    ensures pass { tx.new.pass.ghost_name ≡ tx.old.pass.ghost_name }
    ensures on { GoesOn T.meaning (state tx.old) (state tx.new) }
    ensures noted { AfterStop (state tx.old).stop (state tx.old) (state tx.new) result
        (Notes (note_case (state tx.old) (next_at (state tx.old) node) next) (state tx.old)
        (state tx.new) (next_at (state tx.old) node) next result) }
    ensures given { KeepsGiven (state tx.old) (state tx.new) (next_at (state tx.old) node) }
    ensures gave { Gave (state tx.new) (next_at (state tx.old) node) next }
{
    let next_word = tx.shape().node_next(node);
    tx.note(next_word, next)
}

// The value of a node.
pub(crate) fn value_of<'a, T: Theory>(tx: &mut Txn<'a, T>, node: u32) -> u64
    requires may { MayRead T.meaning (state tx.old) node }
    ensures pass { tx.new.pass.ghost_name ≡ tx.old.pass.ghost_name }
    ensures on { GoesOn T.meaning (state tx.old) (state tx.new) }
    ensures same { state tx.new ≡ record (state tx.old) { pass = (state tx.new).pass } }
    ensures known { Known T.meaning (state tx.new) (λ u h. h.words.value_of_node node ≡ result) }
    ensures given { (other : ℕ) → KeepsGiven (state tx.old) (state tx.new) other }
{
    let value_word = tx.shape().node_value(node);
    tx.field_of(value_word)
}

// The rank of a node.
pub(crate) fn rank_of<'a, T: Theory>(tx: &mut Txn<'a, T>, node: u32) -> u64
    requires may { MayRead T.meaning (state tx.old) node }
    ensures pass { tx.new.pass.ghost_name ≡ tx.old.pass.ghost_name }
    ensures on { GoesOn T.meaning (state tx.old) (state tx.new) }
    ensures same { state tx.new ≡ record (state tx.old) { pass = (state tx.new).pass } }
    ensures known { Known T.meaning (state tx.new) (λ u h. h.words.key_of node ≡ result) }
    ensures given { (other : ℕ) → KeepsGiven (state tx.old) (state tx.new) other }
{
    let key_word = tx.shape().node_key(node);
    tx.field_of(key_word)
}

// Moves the tail from what was seen there to what the next word of its node names. The move is a
// part of the transaction if that next word is its own: then it mustn't stand before the commit.
pub(crate) fn move_tail<'a, T: Theory>(
    tx: &mut Txn<'a, T>,
    queue: u32,
    tail: Seen,
    next: Seen,
) -> Result<Seen, Stop>
    requires may { MayMove T.meaning (state tx.old) queue tail next }
    ensures pass { tx.new.pass.ghost_name ≡ tx.old.pass.ghost_name }
    ensures on { GoesOn T.meaning (state tx.old) (state tx.new) }
    ensures exchanged { AfterStop (state tx.old).stop (state tx.old) (state tx.new) result
        (Exchanges (exchange_case (state tx.old) (tail_at (state tx.old) queue) tail
        (move_kind next)) T.meaning (state tx.old) (state tx.new) (tail_at (state tx.old) queue)
        tail next.value result) }
    ensures given { KeepsGiven (state tx.old) (state tx.new) (tail_at (state tx.old) queue) }
    ensures gave { IfOk result (λ seen. Gave (state tx.new) (tail_at (state tx.old) queue) seen) }
{
    let tail_word = tx.shape().queue_tail(queue);
    let kind = if next.own {
        Kind::Critical
    } else {
        Kind::Plain
    };
    tx.exchange(tail_word, tail, next.value, kind)
}

// Takes a node for a value, with the rank after that of the last node. It names no next node.
#[inline(always)]
pub(crate) fn take_node<'a, T: Theory>(
    tx: &mut Txn<'a, T>,
    rank: u64,
    value: u64,
) -> Result<u32, Stop>
    requires going { IsUnderWay T.meaning (state tx.old) }
    requires operates { (state tx.old).hand.operating ≡ true }
    requires low { rank + 1 < 2 ^ 64 }
    ensures pass { tx.new.pass.ghost_name ≡ tx.old.pass.ghost_name }
    ensures on { GoesOn T.meaning (state tx.old) (state tx.new) }
    ensures fresh { AfterStop (state tx.old).stop (state tx.old) (state tx.new) result
        (Freshened (state tx.old) (state tx.new) (rank + 1) value 0 result) }
    ensures given { FreshKeepsGiven (state tx.old) (state tx.new) result }
{
    tx.fresh(rank + 1, value, 0)
}

// Changes the next word of a node to name a new one, as a part of the transaction.
#[inline(always)]
pub(crate) fn link_next<'a, T: Theory>(
    tx: &mut Txn<'a, T>,
    node: u32,
    next: Seen,
    new: u32,
) -> Result<Seen, Stop>
    requires may { MayLink T.meaning (state tx.old) node next new }
    ensures pass { tx.new.pass.ghost_name ≡ tx.old.pass.ghost_name }
    ensures on { GoesOn T.meaning (state tx.old) (state tx.new) }
    ensures exchanged { AfterStop (state tx.old).stop (state tx.old) (state tx.new) result
        (Exchanges (exchange_case (state tx.old) (next_at (state tx.old) node) next Critical)
        T.meaning (state tx.old) (state tx.new) (next_at (state tx.old) node) next (link new)
        result) }
    ensures gave { IfOk result (λ seen. Gave (state tx.new) (next_at (state tx.old) node) seen) }
{
    let next_word = tx.shape().node_next(node);
    tx.exchange(next_word, next, new * 2, Kind::Critical)
}

// Keeps the move of the tail to a new node until the commit. Others mustn't follow it to a node
// that isn't in the queue yet.
#[inline(always)]
pub(crate) fn move_later<'a, T: Theory>(tx: &mut Txn<'a, T>, queue: u32, tail: Seen, node: u32)
    requires may { MayMoveLater (state tx.old) queue tail node }
    ensures pass { tx.new.pass.ghost_name ≡ tx.old.pass.ghost_name }
    ensures on { Keeps T.meaning (state tx.old) (state tx.new)
        (tail_move (state tx.old) queue tail node) }
    ensures kept { state tx.new ≡ record (state tx.old) {
      slots = with_cleanup_kept (state tx.old) (tail_move (state tx.old) queue tail node);
    } }
{
    let tail_word = tx.shape().queue_tail(queue);
    tx.later(Cleanup::MoveTail {
        tail: tail_word,
        from: tail.value / 2,
        to: node,
    });
}
