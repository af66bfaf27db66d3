//! A transaction under way: its operations, and the nodes that it takes.

ghost use Rattle.std.specs.Prelude.{◌≡◌, ℕ, false, true};
ghost use Rattle.md_words.specs.PlaceAt.{place_at};
ghost use Rattle.md_rule.specs.Kept.{KeepsLanes};
ghost use Rattle.md_nbtc_law.specs.Calls.{EndsOperation, GoesOn, IsData, MayAnswer};
ghost use Rattle.md_nbtc_law.specs.Calls.{data_at, with_act, with_operation};
ghost use Rattle.md_nbtc_law.specs.Going.{IsUnderWay};
ghost use Rattle.md_nbtc_law.specs.Known.{Known};
ghost use Rattle.md_nbtc_law.specs.Seeing.{KeepsGiven};
ghost use Rattle.md_nbtc_law.specs.State.{shape_in};
ghost use Rattle.md_nbtc.specs.State.{state};

use md_history::{Op, Reply, Stop};
use md_machine::Theory;
use md_nbtc_sets::Sets;
use md_rule::{Field, Pass};
use md_words::Shape;
use std::snapshot::Snapshot;

/// A transaction under way. It ends by `stop`, or by `ready` and `decide`. If it is dropped, it is
/// left as by `Txn::leave`: its descriptor stands where it was installed, and its nodes stay taken.
#[derive(Drop)]
pub struct Txn<'a, T: Theory> {
    pub(crate) pass: &'a mut Pass<T>,
    pub(crate) field: &'a Field<T>,
    /// The pass as it stood when the attempt was put in hand. It has no bytes.
    pub(crate) began: Snapshot<Pass<T>>,
    pub(crate) desc: u32,
    pub(crate) serial: u64,
    pub(crate) tag: u64,
    pub(crate) sets: &'a mut Sets,
    pub(crate) stop: Option<Stop>,
}

impl<'a, T: Theory> Txn<'a, T> {
    /// The shape of its field. It takes no step.
    pub fn shape(&self) -> &Shape
        ensures { result.now ≡ shape_in (state self.now) }
    {
        self.field.shape()
    }

    /// Lends to a proof what the pass keeps of its lanes. It does nothing when it runs.
    pub fn kept(&self)
        ensures lanes { KeepsLanes (state self.now).pass.shape (state self.now).pass.view
            (state self.now).pass.shares }
    {
        let _ = self.pass.shape();
    }

    /// Begins an operation. No other is begun. It takes one step.
    pub fn start_op(&mut self)
        requires going { IsUnderWay T.meaning (state self.old) }
        requires between { (state self.old).hand.operating ≡ false }
        ensures pass { self.new.pass.ghost_name ≡ self.old.pass.ghost_name }
        ensures on { GoesOn T.meaning (state self.old) (state self.new) }
        ensures begun { state self.new ≡ record (state self.old) {
          pass = (state self.new).pass;
          hand = with_operation (state self.old).hand;
        } }
    {
        self.pass.mark_start(self.field);
    }

    /// Ends the operation that was begun, with its reply. The theory has a certificate of the
    /// operation with this reply: its changes and new nodes are those that were made since the
    /// operation began, and its words were recorded. It takes one step.
    pub fn end_op(&mut self, op: Op, reply: Reply)
        requires operates { (state self.old).hand.operating ≡ true }
        requires may { MayAnswer T.meaning (state self.old) op reply }
        ensures pass { self.new.pass.ghost_name ≡ self.old.pass.ghost_name }
        ensures on { EndsOperation T.meaning (state self.old) (state self.new) op reply }
        ensures ended { state self.new ≡ record (state self.old) {
          pass = (state self.new).pass;
          hand = with_act (state self.old).hand op reply;
        } }
    {
        self.pass.mark_act(self.field, op, reply);
    }

    /// Returns the key or the value of a node. `word` is the word of the key or of the value. The
    /// node is known to be placed in a structure, or was taken by this transaction. It takes one
    /// step.
    pub fn field_of(&mut self, word: u32) -> u64
        requires going { IsUnderWay T.meaning (state self.old) }
        requires data { IsData T.meaning (state self.old) word }
        ensures pass { self.new.pass.ghost_name ≡ self.old.pass.ghost_name }
        ensures on { GoesOn T.meaning (state self.old) (state self.new) }
        ensures same { state self.new ≡ record (state self.old) { pass = (state self.new).pass } }
        ensures known { Known T.meaning (state self.new)
            (λ u h. data_at h (place_at (shape_in (state self.old)) word) ≡ result) }
        ensures given { (other : ℕ) → KeepsGiven (state self.old) (state self.new) other }
    {
        self.pass.load(self.field, word)
    }
}
