//! How a transaction begins.

ghost use Rattle.std.specs.Prelude.{◌≡◌, ◌↔◌, [], None, IfOk, IfErr};
ghost use Rattle.std.specs.Borrow.{sem, RestsIfErr};
ghost use Rattle.md_arena.specs.Left.{HasTryLeft, NoLane};
ghost use Rattle.md_rule.specs.Views.{IsOf};
ghost use Rattle.md_rule.specs.contracts.pass.Pass.{the_row};
ghost use Rattle.md_nbtc_law.specs.Ending.{BeginsTransaction, BeginsNot};
ghost use Rattle.md_nbtc_law.specs.Going.{IsGoing};
ghost use Rattle.md_nbtc_law.specs.State.{state_of};
ghost use Rattle.md_nbtc.specs.State.{begun_state, state};

use crate::txn::Txn;
use md_arena::take_descriptor;
use md_help::kept;
use md_history::Limit;
use md_machine::Theory;
use md_nbtc_sets::{Sets, put_in_hand};
use md_rule::{Field, Pass};
use std::snapshot::Snapshot;

/// A transaction that was begun, and has no sets yet: `with` lends it some. If it is dropped, its
/// attempt stays in hand until the pass begins another one.
#[derive(Drop)]
pub struct Begun<'a, T: Theory> {
    pub(crate) pass: &'a mut Pass<T>,
    pub(crate) field: &'a Field<T>,
    pub(crate) began: Snapshot<Pass<T>>,
    pub(crate) desc: u32,
    pub(crate) serial: u64,
    pub(crate) tag: u64,
}

impl<'a, T: Theory> Begun<'a, T> {
    fn over(
        pass: &'a mut Pass<T>,
        field: &'a Field<T>,
        began: Snapshot<Pass<T>>,
        desc: u32,
        serial: u64,
        tag: u64,
    ) -> Begun<'a, T>
        ensures pass { result.pass.ghost_name ≡ pass.entry.ghost_name }
        ensures state { begun_state result
            ≡ state_of field.now pass.old began.value [] [] None desc serial tag [] }
    {
        Begun {
            pass,
            field,
            began,
            desc,
            serial,
            tag,
        }
    }

    /// The transaction under way. It keeps its words and nodes in these sets, and first clears
    /// them. It takes no step.
    pub fn with(self, sets: &'a mut Sets) -> Txn<'a, T>
        ensures pass { result.pass.ghost_name ≡ self.entry.pass.ghost_name }
        ensures state { state result ≡ begun_state self.entry }
    {
        let Begun {
            pass,
            field,
            began,
            desc,
            serial,
            tag,
        } = self;
        sets.clear();
        Txn {
            pass,
            field,
            began,
            desc,
            serial,
            tag,
            sets,
            stop: None,
        }
    }
}

impl<'a, T: Theory> Txn<'a, T> {
    /// Begins a transaction with a tag, which may be any number. It uses the next attempt of the
    /// pass's lowest lane that has one left. If the pass has an attempt in hand, that one is left
    /// as it stands. If the lane's last transaction was dropped, it is settled, and its descriptor
    /// is taken out of the words that it wrote; its nodes stay taken. It returns `Limit::Tries`
    /// exactly if each lane has begun all of its attempts. It takes no memory.
    ///
    /// It takes three steps at a lane's first attempt, and four at later ones. After a dropped
    /// transaction that recorded r words, it takes at most `3r + 3` more, and at most four for each
    /// word that the transaction wrote. It takes three more if an attempt was taken and never put
    /// in hand.
    pub fn begin(
        pass: &'a mut Pass<T>,
        field: &'a Field<T>,
        tag: u64,
    ) -> Result<Begun<'a, T>, Limit>
        requires of { IsOf pass.old field.now }
        ensures* refused { sem 𝓛 (RestsIfErr (the_row T.row T.Theory) pass.entry
            (λ t. t.pass.ghost_name) result
            (λ q. BeginsNot T.meaning pass.old field.now.origin q)) }
        ensures pass { IfOk result (λ t. t.pass.ghost_name ≡ pass.entry.ghost_name) }
        ensures field { IfOk result (λ t. (begun_state t).field ≡ field.now) }
        ensures begun { IfOk result (λ t. BeginsTransaction pass.old tag (begun_state t)) }
        ensures going { IfOk result (λ t. IsGoing T.meaning (begun_state t) []) }
        ensures none { (result ≡ Err Limit.Tries) ↔ NoLane pass.old (HasTryLeft pass.old) }
        ensures limit { IfErr result (λ limit. limit ≡ Limit.Tries) }
    {
        pass.mark_leave(field);
        kept(pass);
        let desc = match take_descriptor(pass) {
            Ok(desc) => desc,
            Err(limit) => return Err(limit),
        };
        let began = Snapshot::of(&*pass);
        let serial = put_in_hand(field, pass, desc, tag);
        Ok(Begun::over(pass, field, began, desc, serial, tag))
    }
}
