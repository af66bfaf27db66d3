//! Trials beside a store for one thread, and on threads.

ghost use Rattle.std.specs.Prelude.{◌≡◌, IfOk};
ghost use Rattle.md_history.specs.State.{empty_state};
ghost use Rattle.md_store.specs.Store.{IsPassOf};

use super::{assert_same, same};
use md_history::{Contents, Reply};
use md_store::{OpenFault, Store, StorePass};
use md_store_trials::{Count, KEPT, MOST_CALLS, Mix, Transfer, Turn, Turned, key_of};
use md_words::Shape;
use std::alloc::{AllocError, AllocGlobal, Global};
use std::process::Abort;

mod by_hand;
mod counts;
mod model;
mod moves;
mod running;
mod turns;

// Opens a store, if the contents and the shape have two maps and two queues.
fn opened(alloc: Global, shape: Shape, start: &Contents) -> Result<(Store, StorePass), OpenFault>
    ensures of { IfOk result (λ r. IsPassOf r.0 r.1) }
    ensures maps { IfOk result (λ r. r.0.origin.shape.maps ≡ 2) }
    ensures queues { IfOk result (λ r. r.0.origin.shape.queues ≡ 2) }
{
    let maps = start.maps().len() == 2 && shape.maps == 2;
    let queues = start.queues().len() == 2 && shape.queues == 2;
    if !maps || !queues {
        return Err(OpenFault::NoMemory);
    }
    Store::open(alloc, shape, start)
}

// Closes a store, if the pass holds all lanes.
fn closed(store: Store, pass: StorePass) -> Result<Option<Contents>, AllocError>
    requires { IsPassOf store pass }
{
    if store.holds_all(&pass) {
        let (contents, _) = store.close(pass)?;
        return Ok(Some(contents));
    }
    Ok(None)
}

// Closes a store, whose pass holds all lanes: what it contains.
fn left_in<R: Abort>(rt: &R, store: Store, pass: StorePass) -> Contents
    requires { IsPassOf store pass }
{
    let left = closed(store, pass).expect(rt, "memory");
    left.expect(rt, "all lanes")
}

// Contents with two maps and two queues, with nothing in them.
fn empty<R: Abort + AllocGlobal>(rt: &R) -> Contents
    ensures { result ≡ empty_state 2 2 }
{
    Contents::empty(rt.alloc(), 2, 2).expect(rt, "memory")
}
