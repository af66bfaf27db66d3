//! What lives in a field, gathered in one walk.

ghost use Rattle.std.specs.Prelude.{◌≡◌, ◌<◌, ◌+◌, ◌*◌, ◌^◌, ℕ, List, length, IfOk, OnOk};
ghost use Rattle.md_store_law.specs.Field.{IsStoreField};
ghost use Rattle.md_store_law.specs.Compacted.{pairs_in, values_in};
ghost use Rattle.md_store_law.specs.Lists.{AreFirst};
ghost use Rattle.md_store_law.specs.Living.{LivesIn, by_number};
ghost use Rattle.md_store_law.specs.SideWalks.{EachWalk};

use crate::field_words::FieldWords;
use crate::lists::Lists;
use crate::side_walks::{QueueWalk, new_group, walk_group};
use crate::walks::append_pairs;
use md_words::Shape;
use std::alloc::{AllocError, Global};

/// What lives in a field: the pairs of its buckets, by map and bucket, and the values of its
/// queues. `lay_living` lays them as a new field.
#[derive(Drop)]
pub struct Living {
    pub pairs: Lists<(u64, u64)>,
    pub values: Lists<u64>,
}

impl Living {
    /// The number of nodes that are needed: one for each queue, each pair and each queued value.
    pub fn needed(&self, shape: &Shape) -> u32
        requires { shape.now.queues + length self.now.pairs.joined.items
            + length self.now.values.joined.items < 2 ^ 32 }
        ensures { result ≡ shape.now.queues + length self.now.pairs.joined.items
            + length self.now.values.joined.items }
    {
        shape.queues + self.pairs.joined.len() as u32 + self.values.joined.len() as u32
    }
}

/// Gathers what lives in a field in which every count is even: the pairs of the nodes that its
/// buckets reach, without the removed ones, and the values behind the heads of its queues.
/// `AllocError` if memory runs out.
///
/// Goes along each bucket and each queue once, and along 8 queues side by side, since each step
/// waits for memory. Takes time linear in the heads and the nodes, and 16 bytes for each pair and 8
/// for each value, bucket and queue. Meanwhile it keeps 8 lists, none longer than the longest
/// queue.
pub fn gather<W: FieldWords>(alloc: Global, shape: &Shape, words: &W) -> Result<Living, AllocError>
    requires { IsStoreField shape.now (W.words words.now) }
    ensures { IfOk result (λ living. LivesIn shape.now (W.words words.now) living) }
{
    let pairs = gather_pairs(alloc, shape, words)?;
    let values = gather_values(alloc, shape, words)?;
    Ok(Living { pairs, values })
}

// The pairs of all maps, a list for each bucket.
fn gather_pairs<W: FieldWords>(
    alloc: Global,
    shape: &Shape,
    words: &W,
) -> Result<Lists<(u64, u64)>, AllocError>
    requires { IsStoreField shape.now (W.words words.now) }
    ensures { IfOk result (λ pairs. AreFirst pairs.joined.items pairs.bounds.items
        (by_number shape.now (pairs_in shape.now (W.words words.now)))
        (shape.now.maps * shape.now.buckets)) }
{
    let mut pairs = Lists::new(alloc)?;
    for map in 0..shape.maps {
        gather_map(&mut pairs, shape, words, map)?;
    }
    Ok(pairs)
}

// Gathers the pairs of a map behind those of the maps before it.
fn gather_map<W: FieldWords>(
    pairs: &mut Lists<(u64, u64)>,
    shape: &Shape,
    words: &W,
    map: u32,
) -> Result<(), AllocError>
    requires store { IsStoreField shape.now (W.words words.now) }
    requires map { map < shape.now.maps }
    requires before { AreFirst pairs.old.joined.items pairs.old.bounds.items
        (by_number shape.now (pairs_in shape.now (W.words words.now))) (map * shape.now.buckets) }
    ensures { OnOk result (AreFirst pairs.new.joined.items pairs.new.bounds.items
        (by_number shape.now (pairs_in shape.now (W.words words.now)))
        ((map + 1) * shape.now.buckets)) }
{
    for bucket in 0..shape.buckets {
        append_pairs(&mut pairs.joined, shape, words, map, bucket)?;
        pairs.end()?;
    }
    Ok(())
}

// The values of all queues, a list for each.
fn gather_values<W: FieldWords>(
    alloc: Global,
    shape: &Shape,
    words: &W,
) -> Result<Lists<u64>, AllocError>
    requires { IsStoreField shape.now (W.words words.now) }
    ensures { IfOk result (λ values. AreFirst values.joined.items values.bounds.items
        (values_in shape.now (W.words words.now)) shape.now.queues) }
{
    let mut values = Lists::new(alloc)?;
    let mut walks = new_group(alloc)?;
    let mut queue = 0;
    'groups: while queue < shape.queues {
        walk_group(&mut walks, shape, words, queue)?;
        append_walks(&mut values, &walks)?;
        queue += walks.len() as u32;
    }
    Ok(values)
}

// Appends what walks have read, a list for each.
fn append_walks(values: &mut Lists<u64>, walks: &[QueueWalk]) -> Result<(), AllocError>
    ensures { OnOk result ((lists : ℕ → List ℕ) (first : ℕ)
        → AreFirst values.old.joined.items values.old.bounds.items lists first
        → EachWalk (λ queue walk. walk.values.items ≡ lists queue) first walks.now
        → AreFirst values.new.joined.items values.new.bounds.items lists
        (first + length walks.now)) }
{
    for walk in walks {
        values.joined.extend_from_slice(&walk.values)?;
        values.end()?;
    }
    Ok(())
}
