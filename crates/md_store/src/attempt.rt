//! Attempts: a body that is run once, as a transaction of the store.

ghost use Rattle.md_store.specs.Attempted.{IsAttempted};
ghost use Rattle.md_store_bodies.specs.Store.{IsPassOf};

use crate::body::run;
use crate::pass::StorePass;
use crate::store::Store;
use md_history::{Attempt, Body, Stop};
use md_nbtc::{Sets, Txn};
use md_rule::Pass;
use md_store_law::StoreTheory;
use std::snapshot::Snapshot;

impl Store {
    /// Runs a body once, as a transaction with a tag, by the pass's lowest lane that has an
    /// attempt left. The body must fit the store's numbers of maps and queues.
    ///
    /// `Committed` has the body's reply: the transaction took effect as a whole, as the last entry
    /// of the history that the pass has seen. `Stopped` means that it took no effect. A limit comes
    /// if no lane has an attempt left, before the body runs, or from the first of its calls that was
    /// refused. A conflict comes from such a call, or from the decision: a word that was read
    /// has changed, or another transaction aborted this one. A pass that holds all lanes meets no
    /// conflict. `NoMemory` never comes: no call takes memory. The first attempt of a store that was
    /// just opened or renewed meets no worn word. If also all acts that the body can make from the
    /// store's start count no more words and nodes than `limits_of` allows, it is committed.
    ///
    /// The cost is that of the body's calls, of which md_list and md_queue tell the steps, and of
    /// `Txn::begin`, `Txn::commit` and `Txn::stop`.
    pub fn attempt<B: Body>(&self, pass: &mut StorePass, tag: u64, body: &B) -> Attempt<B::Reply>
        requires of { IsPassOf self.now pass.old }
        requires fits { B.fits body.now self.now.origin.shape.maps self.now.origin.shape.queues }
        ensures { IsAttempted self.now pass.old pass.new tag (B.did body.now) (B.makes body.now)
            result }
    {
        self.attempt_in(&mut pass.pass, &mut pass.sets, tag, body)
    }

    // An attempt by a pass of the field, which keeps its words and nodes in these sets. A reply is
    // large, and each call that only hands it on would copy it.
    pub(crate) fn attempt_in<B: Body>(
        &self,
        pass: &mut Pass<StoreTheory>,
        sets: &mut Sets,
        tag: u64,
        body: &B,
    ) -> Attempt<B::Reply>
        requires of { IsPassOf self.now pass.old }
        requires fits { B.fits body.now self.now.origin.shape.maps self.now.origin.shape.queues }
        ensures { IsAttempted self.now pass.old pass.new tag (B.did body.now) (B.makes body.now)
            result }
    {
        let before = Snapshot::of(&*pass);
        let begun = match Txn::begin(pass, &self.field, tag) {
            Ok(begun) => begun,
            Err(limit) => return Attempt::Stopped(Stop::Limit(limit)),
        };
        let txn = begun.with(sets);
        let mut out = Err(Stop::NoMemory);
        let txn = run(txn, before, body, &mut out);
        match out {
            Ok(reply) => match txn.commit() {
                Ok(()) => Attempt::Committed(reply),
                Err(shown) => Attempt::Stopped(Stop::Conflict(shown)),
            },
            Err(stop) => {
                txn.kept();
                txn.stop();
                Attempt::Stopped(stop)
            }
        }
    }
}
