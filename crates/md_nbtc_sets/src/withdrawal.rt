//! How an aborted transaction is withdrawn.

ghost use Rattle.std.specs.Prelude.{◌≡◌, map};
ghost use Rattle.md_arena.specs.Taking.{with_nodes};
ghost use Rattle.md_help.specs.After.{StandsInField};
ghost use Rattle.md_rule.specs.Views.{IsOf};
ghost use Rattle.md_nbtc_law.specs.Prepared.{TakenInTurn};
ghost use Rattle.md_nbtc_law.specs.State.{lots_since};
ghost use Rattle.md_nbtc_law.specs.Withdrawing.{HasBack, MayGiveBack, MayGiveLotBack};
ghost use Rattle.md_nbtc_law.specs.Withdrawn.{AbortsHand, IsUnready, MayWithdraw, Withdraws};

use crate::sets::{Lots, Slots};
use crate::taking_out::take_writes_out;
use md_arena::give_back;
use md_machine::{AttemptId, Theory};
use md_nbtc_law::Lot;
use md_rule::{Field, Pass};
use md_words::{Status, StatusWord};
use std::snapshot::Snapshot;

// Gives the nodes of a lot back, from the last that was taken to the first.
fn give_lot_back<T: Theory>(pass: &mut Pass<T>, lot: Lot)
    requires lot { MayGiveLotBack pass.old lot }
    ensures { pass.new ≡ with_nodes pass.old lot.lane lot.first }
{
    for place in (lot.first..pass.nodes_taken(lot.lane)).rev() {
        let node = pass.shape().node_of(lot.lane, place);
        give_back(pass, node);
    }
}

// Gives the nodes back that were taken since the transaction began, from the last to the first.
fn give_nodes_back<T: Theory>(pass: &mut Pass<T>, lots: &Lots, began: &Snapshot<Pass<T>>)
    requires lots { lots.now ≡ lots_since began.now.value pass.old }
    requires taken { TakenInTurn began.now.value pass.old }
    requires lanes { pass.old.view.lanes ≡ began.now.value.view.lanes }
    requires free { MayGiveBack began.now.value pass.old }
    ensures { HasBack began.now.value pass.old pass.new }
{
    let _ = began;
    let _ = pass.shape();
    for i in (0..lots.len()).rev() {
        give_lot_back(pass, lots.get(i));
    }
}

/// Ends an attempt that was aborted: its descriptor is taken out of the words that it wrote, its
/// nodes are given back, and nothing is in hand. The attempt is in hand, its slots name the words,
/// its lots say where its nodes begin, and `began` is the pass as it stood when the attempt was put
/// in hand. The call always succeeds, and takes no memory. It takes one step for each written word,
/// and one more.
pub fn withdraw<T: Theory>(
    field: &Field<T>,
    pass: &mut Pass<T>,
    attempt: AttemptId,
    slots: &Slots,
    lots: &Lots,
    began: &Snapshot<Pass<T>>,
)
    requires of { IsOf pass.old field.now }
    requires stands { StandsInField T.meaning field.now.origin pass.old.view }
    requires may { MayWithdraw field.now.origin.shape began.now.value pass.old attempt
        (map (λ s. s.write) slots.now) }
    requires lots { lots.now ≡ lots_since began.now.value pass.old }
    ensures { Withdraws T.meaning field.now.origin began.now.value pass.old attempt
        (map (λ s. s.write) slots.now) pass.new }
{
    let _ = pass.shape();
    take_writes_out(field, pass, attempt, slots, Status::Aborted);
    give_nodes_back(pass, lots, began);
    pass.mark_end(field, attempt.desc);
}

/// Aborts the attempt in hand, which isn't ready, or finds that another has aborted it. It always
/// succeeds, takes no memory, and takes one step.
pub fn abort_unready<T: Theory>(field: &Field<T>, pass: &mut Pass<T>, attempt: AttemptId)
    requires of { IsOf pass.old field.now }
    requires stands { StandsInField T.meaning field.now.origin pass.old.view }
    requires unready { IsUnready field.now.origin.shape pass.old.view attempt }
    ensures same { pass.new ≡ record pass.old { view = pass.new.view } }
    ensures stands { StandsInField T.meaning field.now.origin pass.new.view }
    ensures aborts { AbortsHand field.now.origin.shape attempt pass.old.view pass.new.view }
{
    let _ = pass.shape();
    let from = StatusWord {
        status: Status::InPrep,
        reads: 0,
        serial: attempt.serial,
    };
    let _ = pass.abort(field, attempt.desc, from.word());
}
