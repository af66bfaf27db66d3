//! A field laid anew without the nodes that its contents don't need.

ghost use Rattle.std.specs.Prelude.{◌<◌, ◌+◌, IfOk};
ghost use Rattle.md_store_law.specs.Field.{IsStoreField};
ghost use Rattle.md_store_law.specs.Laid.{IsLaid, dummies};
ghost use Rattle.md_history.specs.Engine.{needed};
ghost use Rattle.md_store_layout.specs.Below.{LaidUpTo, maps_below};
ghost use Rattle.md_store_law.specs.Compacted.{MayHaveBase, IsWithBase, IsCompacted, contents_of};
ghost use Rattle.md_store_law.specs.Living.{HasRoomFor, IsLaidAnew, MayBeLaid};
ghost use Rattle.md_store_law.specs.Living.{listed_nodes, pairs_listed};

use crate::building::{append_pairs, append_values, empty_field};
use md_store_law::{Living, gather};
use md_words::Shape;
use std::alloc::{AllocError, Global};

/// A field with the same contents whose nodes are all needed: removed nodes, and those that the
/// heads of queues have passed, are left out, and every count is 0. Its shape is the old one with
/// as many base nodes as the contents need, which must be in range. All lanes have their nodes
/// again. `AllocError` if memory runs out.
///
/// Takes time linear in the words and the nodes. It goes over the old words once, and keeps the
/// pairs and the values in lists meanwhile. The new words are made in the memory of the old ones.
pub fn compact(
    alloc: Global,
    shape: &Shape,
    words: Vec<u64>,
) -> Result<(Shape, Vec<u64>), AllocError>
    requires store { IsStoreField shape.now words.items }
    requires base { MayHaveBase shape.now (needed (contents_of shape.now words.items)) }
    ensures { IfOk result (λ r. IsCompacted shape.now words.items r.0 r.1.items) }
{
    let living = gather(alloc, shape, &words.as_slice())?;
    lay_living(words, shape, living)
}

/// Lays what was gathered from a field as a new field, as `compact` does. The old words may be
/// gone. `shape` is that of the old field. Returns it with as many base nodes as the contents need,
/// which must be in range, and the new words. They are made in the memory of `words`, which may be
/// any: those of the old field save the system from clearing fresh memory. `AllocError` if memory
/// runs out.
///
/// Takes time linear in the words and the nodes.
pub fn lay_living(
    words: Vec<u64>,
    shape: &Shape,
    living: Living,
) -> Result<(Shape, Vec<u64>), AllocError>
    requires { MayBeLaid shape.now living }
    ensures { IfOk result (λ r. IsLaidAnew shape.now living r.0 r.1.items) }
{
    let fresh = with_base(shape, living.needed(shape));
    let mut words = empty_field(words, &fresh)?;
    lay_all(&mut words, &fresh, &living);
    Ok((fresh, words))
}

// The shape with so many base nodes.
fn with_base(shape: &Shape, base: u32) -> Shape
    requires { MayHaveBase shape.now base }
    ensures { IsWithBase shape.now base result }
{
    Shape {
        lanes: shape.lanes,
        nodes: shape.nodes,
        base,
        tries: shape.tries,
        maps: shape.maps,
        buckets: shape.buckets,
        queues: shape.queues,
    }
}

// Lays the pairs of all maps behind the dummies, and then the values of all queues.
fn lay_all(words: &mut [u64], shape: &Shape, living: &Living)
    requires room { HasRoomFor shape.now living.now }
    requires laid { IsLaid shape.now words.old (dummies shape.now.queues) }
    ensures { IsLaid shape.now words.new (listed_nodes shape.now living.now) }
{
    let mut next = shape.queues + 1;
    for map in 0..shape.maps {
        next = lay_map(words, shape, living, map, next);
    }
    lay_queues(words, shape, living, next);
}

// Lays the pairs of a map behind those of the maps before it. Returns the number of the next node.
fn lay_map(words: &mut [u64], shape: &Shape, living: &Living, map: u32, first: u32) -> u32
    requires room { HasRoomFor shape.now living.now }
    requires map { map < shape.now.maps }
    requires laid { LaidUpTo shape.now words.old
        (maps_below shape.now (pairs_listed shape.now living.now) map) first }
    ensures { LaidUpTo shape.now words.new
        (maps_below shape.now (pairs_listed shape.now living.now) (map + 1)) result }
{
    let mut next = first;
    for bucket in 0..shape.buckets {
        let number = map * shape.buckets + bucket;
        let pairs = living.pairs.list(number as usize);
        next = append_pairs(words, shape, map, bucket, pairs, next);
    }
    next
}

// Lays the values of all queues behind the pairs of all maps.
fn lay_queues(words: &mut [u64], shape: &Shape, living: &Living, first: u32)
    requires room { HasRoomFor shape.now living.now }
    requires laid { LaidUpTo shape.now words.old
        (maps_below shape.now (pairs_listed shape.now living.now) shape.now.maps) first }
    ensures { IsLaid shape.now words.new (listed_nodes shape.now living.now) }
{
    let mut next = first;
    for queue in 0..shape.queues {
        let values = living.values.list(queue as usize);
        next = append_values(words, shape, queue, values, next);
    }
}
