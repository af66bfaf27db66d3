//! A store is an engine: what is written over any engine runs over it.

ghost use Rattle.std.specs.Prelude.{◌≡◌, ◌+◌, IfOk, length};
ghost use Rattle.md_history.specs.Engine.{HasRoom, Joins, SettlesFrom};
ghost use Rattle.md_history.specs.Front.{replay_of};
ghost use Rattle.md_store.specs.Attempted.{IsAttempted};
ghost use Rattle.md_store.specs.Ending.{Renews};
ghost use Rattle.md_store_bodies.specs.Store.{IsPassOf, all_lanes, begun_by, front_in};
ghost use Rattle.md_store_bodies.specs.Store.{room_of, start_of};

use crate::pass::StorePass;
use crate::store::Store;
use md_history::{Attempt, Body, Contents, Engine, Front};
use std::alloc::AllocError;

/// Each call does what that of `Store` with the same name does; `contents` is `close`. An attempt
/// never answers `NoMemory`.
impl Engine for Store {
    ghost use Rattle.md_store_bodies.specs.Laws.{fresh_is, of_is};
    ghost use Rattle.md_store_bodies.specs.Store.{IsNew, IsPassOf, MayStop, all_lanes, begun_by, front_in};
    ghost use Rattle.md_store_bodies.specs.Store.{limits_of, start_of};

    type Pass = StorePass;

    ghost start = { λ s. start_of s };

    ghost lanes = { λ s. all_lanes s.origin.shape };

    ghost limits = { λ s. limits_of s.origin.shape };

    ghost front = { λ p. front_in p };

    ghost begun = { λ p. begun_by p };

    ghost of = { λ s p. IsPassOf s p };

    ghost fresh = { λ s p. IsNew s p };

    ghost may_stop = { λ s stop. MayStop stop };

    fn split(&self, pass: &mut StorePass) -> Option<StorePass> {
        self.split(pass)
    }

    fn attempt<B: Body>(&self, pass: &mut StorePass, tag: u64, body: &B) -> Attempt<B::Reply>
        requires of { IsPassOf self.now pass.old }
        requires fits { B.fits body.now
            (length (start_of self.now).maps) (length (start_of self.now).queues) }
        ensures { IsAttempted self.now pass.old pass.new tag (B.did body.now) (B.makes body.now)
            result }
    {
        self.attempt_in(&mut pass.pass, &mut pass.sets, tag, body)
    }

    fn join(&self, pass: &mut StorePass, other: StorePass)
        requires of { IsPassOf self.now pass.old }
        requires of_other { IsPassOf self.now other }
        ensures joined { Joins (front_in pass.old) (front_in other) (front_in pass.new) }
        ensures begun { begun_by pass.new ≡ begun_by pass.old + begun_by other }
        ensures of { IsPassOf self.now pass.new }
    {
        self.join(pass, other);
    }

    fn renew(self, pass: StorePass) -> Result<(Store, StorePass, Front<StorePass>), AllocError>
        requires of { IsPassOf self pass }
        requires all { (front_in pass).lanes ≡ all_lanes self.origin.shape }
        requires room { HasRoom (start_of self) (room_of self.origin.shape) (front_in pass) }
        ensures settled { IfOk result (λ r.
            SettlesFrom (start_of self) (front_in pass) (front_in r.2)) }
        ensures renews { IfOk result (λ r.
            Renews self r.0 r.1 (replay_of (start_of self) (front_in r.2))) }
    {
        self.renew(pass)
    }

    fn contents(self, pass: StorePass) -> Result<(Contents, Front<StorePass>), AllocError> {
        self.close(pass)
    }

    ghost of_is = { of_is };

    ghost fresh_is = { λ s p of new. fresh_is s p of new.0 };
}
