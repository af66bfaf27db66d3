//! The store for one thread as an engine.

ghost use Rattle.std.specs.Prelude.{◌≡◌, ◌↔◌, ◌+◌, if◌then◌else◌, [], length, true, false, IsNone};
ghost use Rattle.std.specs.Prelude.{IsOk, IfOk};
ghost use Rattle.md_history.specs.Attempt.{CountsAttempt, IfCommitted, IfStopped, IsAtomic};
ghost use Rattle.md_history.specs.Engine.{AreApart, HasEnded, IsFirstPass, Joins};
ghost use Rattle.md_history.specs.Plain.{front_of, begun_by, IsPassOf, plain_limits};

use crate::bodies::Body;
use crate::contents::Contents;
use crate::engines::Engine;
use crate::entries::Entry;
use crate::fronts::Front;
use crate::plain::{PlainPass, PlainStore, begin};
use crate::plain_tx::PlainTx;
use crate::stops::{Attempt, Stop};
use std::alloc::AllocError;

/// An attempt stops only when it runs out of memory, and from then on each attempt stops with
/// `NoMemory`, and `renew` and `contents` return `AllocError`. They do so in no other case. `split`
/// and `join` do nothing: the pass holds the one lane.
impl Engine for PlainStore {
    ghost use Rattle.std.specs.Prelude.{[], ◌∷◌};
    ghost use Rattle.std.proofs.Common.{ap, ◌∙◌};
    ghost use Rattle.md_history.specs.Plain.{front_from, front_from-none, begun_by-fresh};
    ghost use Rattle.md_history.specs.declared.stops.Stop.TheVariants.{NoMemory};

    type Pass = PlainPass;

    ghost start = { λ s. s };

    ghost lanes = { λ s. 0 ∷ [] };

    ghost limits = { λ s. plain_limits };

    ghost front = { λ p. front_of p };

    ghost begun = { λ p. begun_by p };

    ghost of = { λ s p. IsPassOf s p };

    ghost fresh = { λ s p. (p.entries ≡ []) × (p.broken ≡ false) };

    ghost may_stop = { λ s stop. stop ≡ NoMemory };

    fn split(&self, pass: &mut PlainPass) -> Option<PlainPass>
        requires { IsPassOf self.now pass.old }
        ensures none { IsNone result }
        ensures unchanged { pass.new ≡ pass.old }
    {
        let _ = pass;
        None
    }

    fn attempt<B: Body>(&self, pass: &mut PlainPass, tag: u64, body: &B) -> Attempt<B::Reply>
        requires of { IsPassOf self.now pass.old }
        requires fits { B.fits body.now (length self.now.maps) (length self.now.queues) }
        ensures atomic { IsAtomic (B.did body.now) tag self.now result
            (front_of pass.old) (front_of pass.new) }
        ensures of { IsPassOf self.now pass.new }
        ensures no_memory { IfStopped result (λ s. s ≡ Stop.NoMemory) }
        ensures breaks { IfStopped result (λ _. pass.new.broken ≡ true) }
        ensures whole { IfCommitted result (λ _.
            (pass.old.broken ≡ false) × (pass.new.broken ≡ false)) }
        ensures begun { CountsAttempt result (begun_by pass.old) (begun_by pass.new) }
        ensures exact { begun_by pass.new
            ≡ begun_by pass.old + (if pass.old.broken then 0 else 1) }
    {
        if pass.broken {
            return Attempt::Stopped(Stop::NoMemory);
        }
        let mut tx = begin(pass);
        let outcome = body.go(&mut tx);
        let PlainTx {
            start: _,
            contents,
            acts,
            refused: _,
        } = tx;
        pass.contents = contents;
        match outcome {
            Ok(reply) => {
                let number = pass.entries.len() as u64;
                let entry = Entry {
                    lane: 0,
                    number,
                    tag,
                    acts,
                    sound: true,
                };
                match pass.entries.push(entry) {
                    Ok(()) => {
                        pass.broken = false;
                        Attempt::Committed(reply)
                    }
                    Err(_) => Attempt::Stopped(Stop::NoMemory),
                }
            }
            Err(stop) => Attempt::Stopped(stop),
        }
    }

    fn join(&self, pass: &mut PlainPass, other: PlainPass)
        requires of { IsPassOf self.now pass.old }
        requires of_other { IsPassOf self.now other }
        ensures joined { AreApart (front_of pass.old).lanes (front_of other).lanes
            → Joins (front_of pass.old) (front_of other) (front_of pass.new) }
        ensures begun { AreApart (front_of pass.old).lanes (front_of other).lanes
            → begun_by pass.new ≡ begun_by pass.old + begun_by other }
        ensures unchanged { pass.new ≡ pass.old }
    {
        let _ = pass;
        drop(other);
    }

    fn renew(self, pass: PlainPass) -> Result<(PlainStore, PlainPass, Front<PlainPass>), AllocError>
        requires of { IsPassOf self pass }
        ensures ok { IsOk result ↔ (pass.broken ≡ false) }
        ensures ended { IfOk result (λ r. HasEnded self (front_of pass) (front_of r.2) r.0) }
        ensures first { IfOk result (λ r. IsFirstPass (IsPassOf r.0 r.1)
            ((r.1.entries ≡ []) × (r.1.broken ≡ false)) (begun_by r.1)) }
    {
        let (contents, front) = self.contents(pass)?;
        let (store, pass) = PlainStore::open(contents);
        Ok((store, pass, front))
    }

    fn contents(self, pass: PlainPass) -> Result<(Contents, Front<PlainPass>), AllocError>
        requires of { IsPassOf self pass }
        ensures ok { IsOk result ↔ (pass.broken ≡ false) }
        ensures ended { IfOk result (λ r. HasEnded self (front_of pass) (front_of r.1) r.0) }
    {
        if pass.broken {
            return Err(AllocError);
        }
        let front = Front::of(&pass);
        let PlainPass {
            start: _,
            contents,
            entries: _,
            broken: _,
        } = pass;
        Ok((contents, front))
    }

    ghost of_is = { λ s p of. of.front };

    ghost fresh_is = { λ s p of fresh. (
      ap front_from fresh.0 ∙ front_from-none,
      begun_by-fresh p fresh.0 fresh.1,
    ) };
}
