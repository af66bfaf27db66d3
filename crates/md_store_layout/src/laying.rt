//! Contents, laid out as the words of a field.

ghost use Rattle.std.specs.Prelude.{◌≡◌, ◌<◌, ◌≤◌, ◌+◌, ◌++◌, [], IfOk, OnOk};
ghost use Rattle.std.specs.Prelude.{map, length, replicate};
ghost use Rattle.std.specs.List.{range_with_len};
ghost use Rattle.md_history.specs.Contents.{table_of};
ghost use Rattle.md_store_law.specs.Field.{IsStoreField};
ghost use Rattle.md_history.specs.Engine.{needed};
ghost use Rattle.md_store_law.specs.Opens.{OpensWith};
ghost use Rattle.md_store_law.specs.Untouched.{IsUntouched};
ghost use Rattle.md_store_layout.specs.Below.{LaidUpTo, maps_below};
ghost use Rattle.md_store_law.specs.Laid.{IsLaid, HasMapsAndQueues, laid_nodes};
ghost use Rattle.md_store_law.specs.Laid.{dummies, bucket_pairs, pairs_at};

use crate::building::{append_pairs, append_values, empty_field};
use md_history::Contents;
use md_words::Shape;
use std::alloc::{AllocError, Global};
use std::collections::{BTreeMap, VecDeque};

/// The words of a field with these contents, which has as many maps and queues as the shape.
/// `needed(contents)` is at most the shape's number of base nodes. `AllocError` if memory runs out.
///
/// The dummies of the queues come first, then the pairs by map, bucket and rising key, and then the
/// queued values by queue. Nodes are chained in that order, and every count is 0.
///
/// Takes time linear in the words, the pairs and the values: a map that has pairs gives them in
/// rising order of their keys, each is pushed behind those of its bucket, and then the buckets are
/// laid in turn.
pub fn lay(alloc: Global, shape: &Shape, contents: &Contents) -> Result<Vec<u64>, AllocError>
    requires numbers { HasMapsAndQueues shape.now contents.now }
    requires room { needed contents.now ≤ shape.now.base }
    ensures opens { IfOk result (λ words. OpensWith shape.now words.items contents.now) }
    ensures store { IfOk result (λ words. IsStoreField shape.now words.items) }
    ensures laid { IfOk result
        (λ words. IsLaid shape.now words.items (laid_nodes shape.now contents.now)) }
    ensures untouched { IfOk result (λ words. IsUntouched shape.now words.items) }
{
    let mut words = empty_field(Vec::new(alloc), shape)?;
    lay_contents(alloc, &mut words, shape, contents)?;
    Ok(words)
}

// Lays the pairs of all maps behind the dummies, and then the values of all queues.
fn lay_contents(
    alloc: Global,
    words: &mut [u64],
    shape: &Shape,
    contents: &Contents,
) -> Result<(), AllocError>
    requires numbers { HasMapsAndQueues shape.now contents.now }
    requires room { length (laid_nodes shape.now contents.now) ≤ shape.now.base }
    requires laid { IsLaid shape.now words.old (dummies shape.now.queues) }
    ensures { OnOk result (IsLaid shape.now words.new (laid_nodes shape.now contents.now)) }
{
    let mut next = shape.queues + 1;
    for map in 0..shape.maps {
        next = lay_map(alloc, words, shape, contents, map, next)?;
    }
    lay_queues(alloc, words, shape, contents, next)
}

// Lays the pairs of a map behind those of the maps before it. Returns the number of the next node.
fn lay_map(
    alloc: Global,
    words: &mut [u64],
    shape: &Shape,
    contents: &Contents,
    map: u32,
    first: u32,
) -> Result<u32, AllocError>
    requires numbers { HasMapsAndQueues shape.now contents.now }
    requires room { length (laid_nodes shape.now contents.now) ≤ shape.now.base }
    requires map { map < shape.now.maps }
    requires laid { LaidUpTo shape.now words.old
        (maps_below shape.now (pairs_at shape.now contents.now) map) first }
    ensures { IfOk result (λ next. LaidUpTo shape.now words.new
        (maps_below shape.now (pairs_at shape.now contents.now) (map + 1)) next) }
{
    let table = contents.map(map);
    // An empty store is laid without a list for each bucket.
    if table.is_empty() {
        return Ok(first);
    }
    let buckets = by_bucket(alloc, shape, table)?;
    let mut next = first;
    for bucket in 0..shape.buckets {
        next = append_pairs(words, shape, map, bucket, &buckets[bucket as usize], next);
    }
    Ok(next)
}

// Lays the values of all queues behind the pairs of all maps.
fn lay_queues(
    alloc: Global,
    words: &mut [u64],
    shape: &Shape,
    contents: &Contents,
    first: u32,
) -> Result<(), AllocError>
    requires numbers { HasMapsAndQueues shape.now contents.now }
    requires room { length (laid_nodes shape.now contents.now) ≤ shape.now.base }
    requires laid { LaidUpTo shape.now words.old
        (maps_below shape.now (pairs_at shape.now contents.now) shape.now.maps) first }
    ensures { OnOk result (IsLaid shape.now words.new (laid_nodes shape.now contents.now)) }
{
    let mut next = first;
    let mut values = Vec::new(alloc);
    for queue in 0..shape.queues {
        values.clear();
        copy_values(&mut values, contents.queue(queue))?;
        next = append_values(words, shape, queue, &values, next);
    }
    Ok(())
}

// Appends the values of a queue, in order.
fn copy_values(values: &mut Vec<u64>, queue: &VecDeque<u64>) -> Result<(), AllocError>
    ensures { OnOk result (values.new.items ≡ values.old.items ++ queue.now.items) }
{
    for i in 0..queue.len() {
        values.push(queue[i])?;
    }
    Ok(())
}

// The pairs of a map by their buckets, in rising order of their keys.
fn by_bucket(
    alloc: Global,
    shape: &Shape,
    table: &BTreeMap<u64, u64>,
) -> Result<Vec<Vec<(u64, u64)>>, AllocError>
    ensures { IfOk result (λ buckets. map (λ b. b.items) buckets.items
        ≡ map (bucket_pairs shape.now (table_of table.now)) (range_with_len 0 shape.now.buckets)) }
{
    let mut buckets = no_pairs(alloc, shape.buckets)?;
    for (key, value) in table.iter() {
        let bucket = *key % shape.buckets as u64;
        buckets[bucket as usize].push((*key, *value))?;
    }
    Ok(buckets)
}

// So many empty lists.
fn no_pairs(alloc: Global, count: u32) -> Result<Vec<Vec<(u64, u64)>>, AllocError>
    ensures { IfOk result (λ buckets. map (λ b. b.items) buckets.items ≡ replicate count []) }
{
    let mut buckets = Vec::new(alloc);
    for made in 0..count {
        buckets.push(Vec::new(alloc))?;
    }
    Ok(buckets)
}
