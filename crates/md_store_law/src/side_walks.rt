//! Walks along several queues side by side.

ghost use Rattle.std.specs.Prelude.{◌≡◌, ◌<◌, ◌≤◌, ◌+◌, length, IfOk, OnOk};
ghost use Rattle.md_words.specs.LayoutLaws.{IsField};
ghost use Rattle.md_store_law.specs.Field.{IsStoreField};
ghost use Rattle.md_store_law.specs.SideWalks.{IsWalkBegun, MayStep, IsStep};
ghost use Rattle.md_store_law.specs.SideWalks.{EachWalk, AreSteps, AreRead};

use crate::field_words::FieldWords;
use crate::walks::{next_of, node_count, pair_of, value_at};
use md_words::Shape;
use std::alloc::{AllocError, Global};

// So many walks go side by side. Each step misses the caches, and the misses of a group overlap.
const SIDE_BY_SIDE: usize = 8;

/// A walk along a queue: the node that it has come to, and the values that it has read.
#[derive(Drop)]
pub(crate) struct QueueWalk {
    node: u32,
    pub(crate) values: Vec<u64>,
}

impl QueueWalk {
    // A walk that hasn't begun.
    fn new(alloc: Global) -> QueueWalk {
        QueueWalk {
            node: 0,
            values: Vec::new(alloc),
        }
    }

    // Begins at the first node of a queue, whose value isn't one of the queue's.
    fn begin<W: FieldWords>(&mut self, shape: &Shape, words: &W, queue: u32)
        requires field { IsField shape.now (W.words words.now) }
        requires queue { queue < shape.now.queues }
        ensures { IsWalkBegun shape.now (W.words words.now) queue self.new }
    {
        self.node = value_at(words, shape.queue_head(queue)) / 2;
        self.values.clear();
    }

    // Goes on to the next node and reads its value. Returns whether there was one.
    #[inline]
    fn step<W: FieldWords>(&mut self, shape: &Shape, words: &W) -> Result<bool, AllocError>
        requires field { IsField shape.now (W.words words.now) }
        requires may { MayStep shape.now (W.words words.now) self.old }
        ensures { IfOk result (λ on. IsStep shape.now (W.words words.now) self.old on self.new) }
    {
        let next = next_of(shape, words, self.node);
        if next == 0 {
            return Ok(false);
        }
        self.node = next / 2;
        self.values.push(pair_of(shape, words, self.node).1)?;
        Ok(true)
    }
}

/// Walks that haven't begun, as many as go side by side.
pub(crate) fn new_group(alloc: Global) -> Result<Vec<QueueWalk>, AllocError>
    ensures { IfOk result (λ walks. 0 < length walks.items) }
{
    let mut walks = Vec::with_capacity(alloc, SIDE_BY_SIDE)?;
    for i in 0..SIDE_BY_SIDE {
        walks.push(QueueWalk::new(alloc))?;
    }
    Ok(walks)
}

/// Walks along a queue and those that follow it, side by side: each walk along one of them, in
/// order. Each reads the values of its queue, in order, in place of what it had read. Walks for
/// which no queue is left are dropped.
pub(crate) fn walk_group<W: FieldWords>(
    walks: &mut Vec<QueueWalk>,
    shape: &Shape,
    words: &W,
    first: u32,
) -> Result<(), AllocError>
    requires store { IsStoreField shape.now (W.words words.now) }
    requires some { 0 < length walks.old.items }
    requires first { first < shape.now.queues }
    ensures some { 0 < length walks.new.items }
    ensures queues { first + length walks.new.items ≤ shape.now.queues }
    ensures read { OnOk result
        (EachWalk (AreRead shape.now (W.words words.now)) first walks.new.items) }
{
    walks.truncate((shape.queues - first) as usize);
    walk_to_ends(walks, shape, words, first)
}

// Walks along a queue and those that follow it, as many as there are walks.
fn walk_to_ends<W: FieldWords>(
    walks: &mut [QueueWalk],
    shape: &Shape,
    words: &W,
    first: u32,
) -> Result<(), AllocError>
    requires store { IsStoreField shape.now (W.words words.now) }
    requires queues { first + length walks.old ≤ shape.now.queues }
    ensures { OnOk result (EachWalk (AreRead shape.now (W.words words.now)) first walks.new) }
{
    begin_group(walks, shape, words, first);
    for step in 0..node_count(shape) {
        if !step_group(walks, shape, words)? {
            return Ok(());
        }
    }
    Ok(())
}

// Begins each walk at the first node of its queue.
fn begin_group<W: FieldWords>(walks: &mut [QueueWalk], shape: &Shape, words: &W, first: u32)
    requires field { IsField shape.now (W.words words.now) }
    requires queues { first + length walks.old ≤ shape.now.queues }
    ensures { EachWalk (IsWalkBegun shape.now (W.words words.now)) first walks.new }
{
    for (i, walk) in walks.iter_mut().enumerate() {
        walk.begin(shape, words, first + i as u32);
    }
}

// Takes a step of each walk. Returns whether one of them went on.
#[inline]
fn step_group<W: FieldWords>(
    walks: &mut [QueueWalk],
    shape: &Shape,
    words: &W,
) -> Result<bool, AllocError>
    requires field { IsField shape.now (W.words words.now) }
    requires may { EachWalk (λ queue. MayStep shape.now (W.words words.now)) 0 walks.old }
    ensures { IfOk result (λ going.
        AreSteps shape.now (W.words words.now) walks.old going walks.new) }
{
    let mut going = false;
    for walk in walks.iter_mut() {
        if walk.step(shape, words)? {
            going = true;
        }
    }
    Ok(going)
}
