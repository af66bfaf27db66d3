//! The moves of lanes, a split and a join: two loads of word 0 each. One is the move, and one tells
//! of a machine of the field in which the move can be made.

ghost use Rattle.std.specs.Prelude.{◌≡◌, ◌≤◌, ◌<◌, [], length, Some, None, IfSome, IfNone};
ghost use Rattle.atomic_table.specs.Table.{State, Seen, Splits, Joins as JoinsViews};
ghost use Rattle.md_machine.specs.events.SplitJoin.{kept_part, given_part, joined_part, spent};
ghost use Rattle.md_rule.specs.declared.known.Known.{Known};
ghost use Rattle.md_rule.specs.Rule.{JoinedInto, Shows, SplitInto};
ghost use Rattle.md_rule_lanes.specs.Shares.{joined_shares};
ghost use Rattle.md_rule.specs.Views.{IsOf};

use crate::field::Field;
use crate::known::Known;
use crate::pass::Pass;
use crate::rule::{Halves, Halving, Joining, Joins, Looking, Looks};
use atomic_table::Seat;
use md_machine::Theory;
use md_rule_lanes::take_shares;
use std::marker::Brand;

impl<T: Theory> Pass<T> {
    /// Gives the last half of the lanes, rounded down, to a new pass, which knows what this one
    /// knows. Nothing is in hand of either part. `None` exactly if the pass has one lane; then
    /// nothing changes.
    ///
    /// Two loads of word 0. It takes no memory and waits for nobody.
    pub fn split(&mut self, field: &Field<T>) -> Option<Pass<T>>
        requires { IsOf self.old field.now }
        ensures some { IfSome result (λ p. (2 ≤ length self.old.view.lanes)
            × (self.new ≡ record self.old { view = kept_part self.old.shape self.old.view })
            × (p ≡ record self.old { view = given_part self.old.shape self.old.view })) }
        ensures step { IfSome result (λ p.
            SplitInto T.meaning field.now.origin self.old.view self.new.view p.view) }
        ensures none { IfNone result ((length self.old.view.lanes ≡ 1) × (self.new ≡ self.old)) }
    {
        if !self.lanes.are_several() {
            return None;
        }
        look::<Brand, T>(field, &mut self.seat);
        let seat = split_seat::<Brand, T>(field, &mut self.seat);
        let lanes = self.lanes.split();
        Some(self.part(seat, lanes))
    }

    /// Takes in another pass of the field: the pass then has the lanes of both, and knows what both
    /// knew. Nothing is in hand. It has no refusal.
    ///
    /// Two loads of word 0. It takes no memory and waits for nobody.
    pub fn join(&mut self, field: &Field<T>, other: Pass<T>)
        requires mine { IsOf self.old field.now }
        requires others { IsOf other field.now }
        ensures joined { self.new ≡ record self.old {
          view = joined_part self.old.shape self.old.view other.view;
          shares = joined_shares other.view.lanes self.old.shares other.shares;
        } }
        ensures step { JoinedInto T.meaning field.now.origin self.old.view other.view
            self.new.view }
    {
        let (seat, lanes, shares, _) = other.into_parts();
        join_seat::<Brand, T>(field, &mut self.seat, seat);
        look::<Brand, T>(field, &mut self.seat);
        take_shares(&mut self.shares, &lanes, &shares);
        self.lanes.join(lanes, &self.shape);
    }
}

fn split_seat<K: Halving, T: Theory>(
    field: &Field<T>,
    seat: &mut Seat<(), Known>,
) -> Seat<(), Known>
    requires field { seat.old.table_id ≡ field.now.table }
    requires may { Splits {S = Unit {0}} (Shows T.meaning field.now.origin) seat.old.id
        seat.old.me.0 (record seat.old.me.0 { view = K.kept seat.old.me.0.view })
        (record { view = K.given seat.old.me.0.view; joined = None; private = None }) }
    ensures field { (seat.new.table_id ≡ seat.old.table_id)
        × (result.table_id ≡ seat.old.table_id) }
    ensures kept { (seat.new.me.0.view ≡ K.kept seat.old.me.0.view)
        × (seat.new.me.1 ≡ seat.old.me.1) }
    ensures given { (result.me.0.view ≡ K.given seat.old.me.0.view) × (result.me.1 ≡ []) }
    ensures private { (seat.new.me.0.private ≡ seat.old.me.0.private)
        × (result.me.0.private ≡ None) }
{
    field.table.shared.split_seat::<Halves<K>>(seat)
}

fn join_seat<K: Joining, T: Theory>(
    field: &Field<T>,
    seat: &mut Seat<(), Known>,
    other: Seat<(), Known>,
)
    requires field { (seat.old.table_id ≡ field.now.table) × (other.table_id ≡ field.now.table) }
    requires bare { other.me.1 ≡ [] }
    requires may { JoinsViews {S = Unit {0}} (Shows T.meaning field.now.origin) seat.old.id
        seat.old.me.0 other.id other.me.0 (record {
          view = K.joined seat.old.me.0.view other.me.0.view;
          joined = Some (record { one = seat.old.me.0.view; other = other.me.0.view });
          private = seat.old.me.0.private;
        }) (record { view = spent; joined = None; private = None }) }
    ensures field { seat.new.table_id ≡ seat.old.table_id }
    ensures joined { seat.new.me ≡ (
      record {
        view = K.joined seat.old.me.0.view other.me.0.view;
        joined = Some (record { one = seat.old.me.0.view; other = other.me.0.view });
        private = seat.old.me.0.private;
      },
      seat.old.me.1,
    ) }
{
    field.table.shared.join_seat::<Joins<K>>(seat, other);
}

// A load of word 0 that changes nothing. It tells what follows from the rule of the table.
fn look<K: Looking, T: Theory>(field: &Field<T>, seat: &mut Seat<(), Known>)
    requires field { seat.old.table_id ≡ field.now.table }
    requires tells { (s : State (Unit {0}) Known)
        → Seen (Shows T.meaning field.now.origin) seat.old.id seat.old.me.0 s
        → K.tells seat.old.me.0 }
    ensures field { seat.new.table_id ≡ seat.old.table_id }
    ensures same { seat.new.me ≡ seat.old.me }
    ensures told { K.tells seat.old.me.0 }
{
    field.table.shared.load::<Looks<K>>(seat, 0);
}
