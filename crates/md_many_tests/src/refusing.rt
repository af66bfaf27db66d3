//! A store that refuses attempts as a list says.

ghost use Rattle.std.specs.Prelude.{◌≡◌, ◌∷◌, [], length, if◌then◌else◌, IfOk};
ghost use Rattle.md_history.specs.Plain.{front_of, plain_limits, IsPassOf};
ghost use Rattle.md_history.specs.Engine.{IsFrontFrom};

use md_history::{
    Attempt, Body, Contents, Engine, Front, Limit, PlainPass, PlainStore, Shown, Stop,
};
use std::alloc::{AllocError, Global};
use std::sync::atomic::{AtomicU64, Ordering};

pub(crate) const CONFLICT: Option<Stop> = Some(Stop::Conflict(Shown {
    word: 2,
    was: 1,
    now: 2,
}));

// Another conflict.
pub(crate) const LATER: Option<Stop> = Some(Stop::Conflict(Shown {
    word: 3,
    was: 4,
    now: 5,
}));

pub(crate) const LIMIT: Option<Stop> = Some(Stop::Limit(Limit::Nodes));

pub(crate) const NO_MEMORY: Option<Stop> = Some(Stop::NoMemory);

// A store for one thread, which counts its attempts where others see it. If it is shared, it is
// seen as one of two lanes: its pass doesn't hold all lanes, and conflicts are lawful.
#[derive(Drop)]
pub(crate) struct Refusing<'a> {
    store: PlainStore,
    shared: bool,
    attempts: &'a AtomicU64,
}

// Its pass, with the stops that attempts of a shared store answer, one after another, and the last
// one again and again; `None` is an attempt of the store.
#[derive(Drop)]
pub(crate) struct RefusingPass {
    pub(crate) pass: PlainPass,
    stops: [Option<Stop>; 4],
    begun: usize,
}

impl<'a> Refusing<'a> {
    // A shared store with one queue, which is empty.
    pub(crate) fn open(
        alloc: Global,
        attempts: &'a AtomicU64,
        stops: [Option<Stop>; 4],
    ) -> Result<(Refusing<'a>, RefusingPass), AllocError>
        ensures of { IfOk result (λ r. IsPassOf r.0.store r.1.pass) }
        ensures front { IfOk result (λ r.
            IsFrontFrom r.0.store (if r.0.shared then 0 ∷ 1 ∷ [] else 0 ∷ [])
            (front_of r.1.pass)) }
        ensures queues { IfOk result (λ r. length r.0.store.queues ≡ 1) }
    {
        let (store, pass) = PlainStore::open(Contents::empty(alloc, 0, 1)?);
        let pass = RefusingPass {
            pass,
            stops,
            begun: 0,
        };
        Ok((
            Refusing {
                store,
                shared: true,
                attempts,
            },
            pass,
        ))
    }
}

impl<'a> Engine for Refusing<'a> {
    ghost use Rattle.std.specs.Prelude.{◌∷◌, if◌then◌else◌};

    type Pass = RefusingPass;

    ghost start = { λ s. s.store };

    ghost lanes = { λ s. if s.shared then 0 ∷ 1 ∷ [] else 0 ∷ [] };

    ghost limits = { λ s. plain_limits };

    ghost front = { λ p. front_of p.pass };

    ghost begun = { λ p. p.begun };

    ghost of = { λ s p. IsPassOf s.store p.pass
        × IsFrontFrom s.store (if s.shared then 0 ∷ 1 ∷ [] else 0 ∷ []) (front_of p.pass) };

    ghost fresh = { λ s p. ⊥ };

    ghost may_stop = { λ s stop. Unit {0} };

    fn split(&self, pass: &mut RefusingPass) -> Option<RefusingPass> {
        let _ = pass;
        None
    }

    fn attempt<B: Body>(&self, pass: &mut RefusingPass, tag: u64, body: &B) -> Attempt<B::Reply> {
        let number = pass.begun;
        if number == usize::MAX {
            return Attempt::Stopped(Stop::Limit(Limit::Tries));
        }
        pass.begun = number + 1;
        self.attempts.fetch_add(1, Ordering::SeqCst);
        if self.shared {
            if let Some(stop) = pass.stops[number.min(3)] {
                return Attempt::Stopped(stop);
            }
        }
        self.store.attempt(&mut pass.pass, tag, body)
    }

    fn join(&self, pass: &mut RefusingPass, other: RefusingPass) {
        let _ = pass;
        drop(other);
    }

    // No pass of a shared store holds both lanes; no test renews or closes another.
    fn renew(
        self,
        pass: RefusingPass,
    ) -> Result<(Refusing<'a>, RefusingPass, Front<RefusingPass>), AllocError> {
        drop(pass);
        Err(AllocError)
    }

    fn contents(self, pass: RefusingPass) -> Result<(Contents, Front<RefusingPass>), AllocError> {
        drop(pass);
        Err(AllocError)
    }

    ghost of_is = { λ s p of. of.1 };

    ghost fresh_is = { λ s p of fresh. absurd fresh };
}
