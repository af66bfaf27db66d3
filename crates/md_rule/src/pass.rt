//! A pass: a seat of the table, with its lanes.

ghost use Rattle.std.specs.Prelude.{◌≡◌, ◌<◌, ◌↔◌, None, [], length, slice_index, replicate};
ghost use Rattle.std.specs.Prelude.{IsTrue};
ghost use Rattle.md_machine.specs.Event.{first_pass};
ghost use Rattle.md_machine.specs.clauses.passes.Alone.{HoldsAll};
ghost use Rattle.md_rule_lanes.specs.declared.shares.TheConstants.{UNUSED};
ghost use Rattle.md_rule.specs.Kept.{KeepsLanes};
ghost use Rattle.md_rule.specs.Lanes.{AreLanes};
ghost use Rattle.md_rule.specs.Private.{HasPrivateWords};
ghost use Rattle.md_rule.specs.Views.{IsOf};

use crate::field::Field;
use crate::known::Known;
use atomic_table::Seat;
use md_machine::Theory;
use md_rule_lanes::{Lanes, Share, UNUSED, has_all};
use md_words::Shape;
use std::marker::{Model, PhantomData};

/// A thread's right to step on a field: it holds some of the field's lanes, and keeps a few numbers
/// of each. What it knows, its trail among it, is seen by contracts alone and has no bytes. A pass
/// that is dropped takes its lanes with it. The pass of a field with one lane also has its words.
#[derive(Drop)]
pub struct Pass<T: Theory> {
    pub(crate) seat: Seat<(), Known>,
    pub(crate) shape: Shape,
    pub(crate) lanes: Lanes,
    pub(crate) shares: [Share; 64],
    // All words of the field if it has one lane, and otherwise none.
    pub(crate) private: Option<Vec<u64>>,
    theory: PhantomData<T>,
}

impl<T: Theory> Model for Pass<T> {
    ghost use Rattle.std.specs.Prelude.{◌≡◌, ◌<◌, []};
    ghost use Rattle.md_rule.specs.Views.{PassState};

    ghost Value = { PassState };

    ghost view = { λ p. record {
      table = p.seat.table_id;
      shape = p.shape;
      view = p.seat.me.0.view;
      shares = p.shares;
    } };

    ghost use Rattle.md_rule.specs.Kept.{KeepsLanes};
    ghost use Rattle.md_rule.specs.Lanes.{AreLanes};
    ghost use Rattle.md_rule.specs.Private.{HasPrivateWords};

    ghost invariant = { λ p. (p.seat.me.0.view.lanes ≡ p.lanes) × AreLanes p.shape p.lanes
        × (p.seat.me.1 ≡ []) × KeepsLanes p.shape p.seat.me.0.view p.shares
        × HasPrivateWords p.shape p.private p.seat.me.0 };
}

impl<T: Theory> Pass<T> {
    pub(crate) fn of(seat: Seat<(), Known>, shape: Shape, private: Option<Vec<u64>>) -> Pass<T>
        requires view { (seat.me.0.view ≡ first_pass shape) × (seat.me.1 ≡ []) }
        requires private { HasPrivateWords shape private seat.me.0 }
        ensures { (result.table ≡ seat.table_id) × (result.shape ≡ shape)
            × (result.view ≡ seat.me.0.view) × (result.shares ≡ replicate 64 UNUSED) }
    {
        Pass {
            seat,
            shape,
            lanes: Lanes::all(shape.lanes),
            shares: [UNUSED; 64],
            private,
            theory: PhantomData,
        }
    }

    /// The numbers of its field. The contract also lends what every pass keeps: it holds at least
    /// one of the field's lanes, and of each what `KeepsLanes` says. Constant time; it makes no
    /// step.
    pub fn shape(&self) -> &Shape
        ensures shape { result.now ≡ self.now.shape }
        ensures lanes { AreLanes self.now.shape self.now.view.lanes }
        ensures shares { length self.now.shares ≡ 64 }
        ensures kept { KeepsLanes self.now.shape self.now.view self.now.shares }
    {
        count(&self.shares);
        &self.shape
    }

    /// How many lanes it holds: 1 to 64. Takes time linear in them. It makes no step.
    pub fn lanes(&self) -> u32
        ensures { result ≡ length self.now.view.lanes }
    {
        self.lanes.count()
    }

    /// The lane at a place of its lanes, in rising order from 0. The place is below `lanes()`.
    /// Takes time linear in the place. It makes no step.
    pub fn lane(&self, place: u32) -> u32
        requires { place < length self.now.view.lanes }
        ensures lane { result ≡ slice_index self.now.view.lanes place }
        ensures below { result < 64 }
    {
        self.lanes.at(place)
    }

    /// Whether it holds all lanes of the field, which is its own. Takes time linear in the lanes.
    /// It makes no step.
    pub fn holds_all(&self, field: &Field<T>) -> bool
        requires { IsOf self.now field.now }
        ensures { IsTrue result ↔ HoldsAll field.now.origin.shape self.now.view }
    {
        has_all(&self.lanes, &self.shape)
    }

    // Another pass of the same field with these lanes, and copies of the shares. The field has more
    // than one lane, so there are no private words.
    pub(crate) fn part(&self, seat: Seat<(), Known>, lanes: Lanes) -> Pass<T>
        requires lanes { (seat.me.0.view.lanes ≡ lanes) × AreLanes self.now.shape lanes
            × (seat.me.1 ≡ []) }
        requires kept { KeepsLanes self.now.shape seat.me.0.view self.now.shares }
        requires shared { HasPrivateWords self.now.shape None seat.me.0 }
        ensures { result ≡ record self.now { table = seat.table_id; view = seat.me.0.view } }
    {
        Pass {
            seat,
            shape: self.shape,
            lanes,
            shares: self.shares,
            private: None,
            theory: PhantomData,
        }
    }

    pub(crate) fn into_parts(self) -> (Seat<(), Known>, Lanes, [Share; 64], Option<Vec<u64>>)
        ensures seat { (result.0.table_id ≡ self.table) × (result.0.me.0.view ≡ self.view)
            × (result.0.me.1 ≡ []) }
        ensures lanes { (result.1 ≡ self.view.lanes) × AreLanes self.shape result.1 }
        ensures shares { (result.2 ≡ self.shares) × KeepsLanes self.shape self.view self.shares }
        ensures private { HasPrivateWords self.shape result.3 result.0.me.0 }
    {
        let Pass {
            seat,
            shape: _,
            lanes,
            shares,
            private,
            theory: _,
        } = self;
        (seat, lanes, shares, private)
    }
}

// There is a share for each lane that there may be.
fn count(shares: &[Share; 64])
    ensures { length shares.now ≡ 64 }
{
    let _ = shares;
}
