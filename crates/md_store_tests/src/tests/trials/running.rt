//! Bodies that two or four threads run at once on a new store, each with a pass of its own.

ghost use Rattle.std.specs.Prelude.{IfOk};
ghost use Rattle.md_store.specs.Store.{IsPassOf};

use super::*;
use md_history::{Attempt, Body};
use md_many::attempt_until_committed;
use md_words::ShapeFault;
use std::thread::{Threads, join};

// How many bodies each thread runs.
pub(super) const TURNS: u32 = 20_000;

// A shape of two maps of one bucket and of two queues. Each lane has two nodes for each body of a
// thread, and more attempts than a thread ever makes.
fn one_bucket(lanes: u32) -> Result<Shape, ShapeFault> {
    Shape::new(lanes, 2 * TURNS, 8, u32::MAX, 2, 1, 2)
}

// What threads did: what the bodies of each replied, in order, and the pass of all their lanes.
#[derive(Drop)]
pub(super) struct Done<R> {
    pub(super) pass: StorePass,
    pub(super) replies: Vec<Vec<R>>,
}

// Runs bodies in order, until one stops for another reason than a conflict. Their replies go into a
// list.
fn run_bodies<B: Body>(
    store: &Store,
    pass: &mut StorePass,
    bodies: &[B],
    replies: &mut Vec<B::Reply>,
) -> Result<(), AllocError>
    requires of { IsPassOf store.now pass.old }
    requires fits { (body : B) → B.fits body store.now.origin.shape.maps store.now.origin.shape.queues }
    ensures of { IsPassOf store.now pass.new }
{
    for (tag, body) in bodies.iter().enumerate() {
        match attempt_until_committed(store, pass, tag as u64, body, u32::MAX) {
            Attempt::Committed(reply) => replies.push(reply)?,
            Attempt::Stopped(_) => return Ok(()),
        }
    }
    Ok(())
}

// What a thread does.
fn run_part<B: Body>(
    alloc: Global,
    store: &Store,
    mut pass: StorePass,
    bodies: &[B],
) -> Result<Done<B::Reply>, AllocError>
    requires of { IsPassOf store.now pass }
    requires fits { (body : B) → B.fits body store.now.origin.shape.maps store.now.origin.shape.queues }
    ensures of { IfOk result (λ d. IsPassOf store.now d.pass) }
{
    let mut replies = Vec::with_capacity(alloc, bodies.len())?;
    run_bodies(store, &mut pass, bodies, &mut replies)?;
    let mut all = Vec::new(alloc);
    all.push(replies)?;
    Ok(Done { pass, replies: all })
}

// Joins what two did.
fn join_done<R: Drop>(
    store: &Store,
    first: Result<Done<R>, AllocError>,
    second: Result<Done<R>, AllocError>,
) -> Result<Done<R>, AllocError>
    requires of { IfOk first (λ d. IsPassOf store.now d.pass) }
    requires of_other { IfOk second (λ d. IsPassOf store.now d.pass) }
    ensures of { IfOk result (λ d. IsPassOf store.now d.pass) }
{
    let mut done = first?;
    let mut other = second?;
    store.join(&mut done.pass, other.pass);
    done.replies.append(&mut other.replies)?;
    Ok(done)
}

// Two threads run bodies, each with half of the lanes. `AllocError` if there is only one lane.
fn run_two<R: Threads + Sync, B: Body + Sync>(
    rt: &R,
    alloc: Global,
    store: &Store,
    mut pass: StorePass,
    one: &[B],
    other: &[B],
) -> Result<Done<B::Reply>, AllocError>
where
    B::Reply: Send,
    requires of { IsPassOf store.now pass }
    requires fits { (body : B) → B.fits body store.now.origin.shape.maps store.now.origin.shape.queues }
    ensures of { IfOk result (λ d. IsPassOf store.now d.pass) }
{
    let Some(half) = store.split(&mut pass) else {
        return Err(AllocError);
    };
    let (first, second) = join(
        rt,
        || run_part(alloc, store, pass, one),
        || run_part(alloc, store, half, other),
    );
    join_done(store, first, second)
}

// Four threads run bodies, two of them with each half of the lanes. `AllocError` if there is only
// one lane.
fn run_four<R: Threads + Sync, B: Body + Sync>(
    rt: &R,
    alloc: Global,
    store: &Store,
    mut pass: StorePass,
    bodies: &[Vec<B>],
) -> Result<Done<B::Reply>, AllocError>
where
    B::Reply: Send,
    requires of { IsPassOf store.now pass }
    requires fits { (body : B) → B.fits body store.now.origin.shape.maps store.now.origin.shape.queues }
    ensures of { IfOk result (λ d. IsPassOf store.now d.pass) }
{
    let Some(half) = store.split(&mut pass) else {
        return Err(AllocError);
    };
    let (first, second) = join(
        rt,
        move || -> Result<Done<B::Reply>, AllocError>
            requires of { IsPassOf store.now pass }
            requires fits { (body : B)
                → B.fits body store.now.origin.shape.maps store.now.origin.shape.queues }
            ensures of { IfOk result (λ d. IsPassOf store.entry.now d.pass) }
        {
            run_two(
                rt,
                alloc,
                store,
                pass,
                bodies_of(bodies, 0),
                bodies_of(bodies, 1),
            )
        },
        move || -> Result<Done<B::Reply>, AllocError>
            requires of { IsPassOf store.now half }
            requires fits { (body : B)
                → B.fits body store.now.origin.shape.maps store.now.origin.shape.queues }
            ensures of { IfOk result (λ d. IsPassOf store.entry.now d.pass) }
        {
            run_two(
                rt,
                alloc,
                store,
                half,
                bodies_of(bodies, 2),
                bodies_of(bodies, 3),
            )
        },
    );
    join_done(store, first, second)
}

// The bodies of a thread, if it has any.
fn bodies_of<B>(bodies: &[Vec<B>], thread: usize) -> &[B] {
    match bodies.get(thread) {
        Some(bodies) => bodies.as_slice(),
        None => &[],
    }
}

// Two or four threads run the bodies of each.
fn run_all<R: Threads + Sync, B: Body + Sync>(
    rt: &R,
    alloc: Global,
    store: &Store,
    pass: StorePass,
    bodies: &[Vec<B>],
) -> Result<Done<B::Reply>, AllocError>
where
    B::Reply: Send,
    requires of { IsPassOf store.now pass }
    requires fits { (body : B) → B.fits body store.now.origin.shape.maps store.now.origin.shape.queues }
    ensures of { IfOk result (λ d. IsPassOf store.now d.pass) }
{
    if bodies.len() > 2 {
        return run_four(rt, alloc, store, pass, bodies);
    }
    run_two(
        rt,
        alloc,
        store,
        pass,
        bodies_of(bodies, 0),
        bodies_of(bodies, 1),
    )
}

// What bodies replied, thread by thread, and what they left.
#[derive(Drop)]
pub(super) struct Ran<R> {
    pub(super) replies: Vec<Vec<R>>,
    pub(super) left: Contents,
}

// Two or four threads run bodies on a new store with a lane for each.
pub(super) fn run_on_new<R: Abort + AllocGlobal + Threads + Sync, B: Body + Sync>(
    rt: &R,
    start: &Contents,
    bodies: &[Vec<B>],
) -> Ran<B::Reply>
where
    B::Reply: Send,
    requires fits { (body : B) → B.fits body 2 2 }
{
    let lanes = if bodies.len() > 2 { 4 } else { 2 };
    let shape = one_bucket(lanes).expect(rt, "a shape");
    let (store, pass) = opened(rt.alloc(), shape, start).expect(rt, "a store");
    let done = run_all(rt, rt.alloc(), &store, pass, bodies).expect(rt, "memory");
    let Done { pass, replies } = done;
    let left = left_in(rt, store, pass);
    Ran { replies, left }
}
