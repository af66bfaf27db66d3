//! Settling: what transactions left standing is decided and taken out of the words.

ghost use Rattle.std.specs.Prelude.{◌≡◌, None, length};
ghost use Rattle.std.specs.List.{Contains};
ghost use Rattle.md_history.specs.Engine.{SettlesFrom};
ghost use Rattle.md_rule.specs.Closing.{MayClose};
ghost use Rattle.md_store_law.specs.Store.{store};
ghost use Rattle.md_store.specs.Settling.{SettlesDescriptor, SettlesFirst};
ghost use Rattle.md_store_bodies.specs.Store.{IsPassOf, all_lanes, front_in, start_of};

use md_help::kept;
use md_nbtc::{decided_status, take_left_out};
use md_rule::{Field, Pass};
use md_store_law::StoreTheory;

// Decides whatever was left open, by a pass that holds all lanes, and takes it out of the words:
// then the pass knows every fate, and the field may be closed.
pub(crate) fn settle(field: &Field<StoreTheory>, pass: &mut Pass<StoreTheory>)
    requires of { IsPassOf field.now pass.old }
    requires all { (front_in pass.old).lanes ≡ all_lanes field.now.origin.shape }
    ensures of { IsPassOf field.now pass.new }
    ensures settles { SettlesFrom (start_of field.now) (front_in pass.old) (front_in pass.new) }
    ensures may { MayClose store field.now.origin pass.new.view }
{
    pass.mark_leave(field);
    settle_lanes(field, pass);
}

// Settles the lanes of a pass that has nothing in hand.
fn settle_lanes(field: &Field<StoreTheory>, pass: &mut Pass<StoreTheory>)
    requires of { IsPassOf field.now pass.old }
    requires idle { pass.old.view.hand ≡ None }
    ensures of { IsPassOf field.now pass.new }
    ensures same { pass.new ≡ record pass.old { view = pass.new.view } }
    ensures settles { SettlesFirst field.now.origin.shape (length pass.old.view.lanes)
        pass.old.view pass.new.view }
{
    for place in 0..pass.lanes() {
        let lane = pass.lane(place);
        settle_lane(field, pass, lane);
    }
}

// Settles the last transaction of a lane, if it has begun one.
fn settle_lane(field: &Field<StoreTheory>, pass: &mut Pass<StoreTheory>, lane: u32)
    requires of { IsPassOf field.now pass.old }
    requires idle { pass.old.view.hand ≡ None }
    requires lane { Contains pass.old.view.lanes lane }
    ensures of { IsPassOf field.now pass.new }
    ensures same { pass.new ≡ record pass.old { view = pass.new.view } }
    ensures settles { SettlesDescriptor field.now.origin.shape lane pass.old.view pass.new.view }
{
    kept(pass);
    if pass.tries_taken(lane) == 0 {
        return;
    }
    take_left_out(field, pass, lane);
    let _ = decided_status(field, pass, lane);
}
