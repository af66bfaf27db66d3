//! The contents of a field, read off from its words.

ghost use Rattle.std.specs.Prelude.{◌≡◌, ◌<◌, ◌≤◌, ◌+◌, ◌^◌, [], length, IfOk, OnOk};
ghost use Rattle.md_history.specs.State.{queue_at, with_queue};
ghost use Rattle.md_store_law.specs.Store.{state_of_store};
ghost use Rattle.md_store_law.specs.Field.{logical_words, IsStoreField};
ghost use Rattle.md_hash_law.specs.HashTable.{pairs_of_map};
ghost use Rattle.md_store_law.specs.MapsFrom.{MapsFrom};
ghost use Rattle.md_store_law.specs.SideWalks.{EachWalk, AreFilled};

use crate::field_words::FieldWords;
use crate::side_walks::{QueueWalk, new_group, walk_group};
use crate::walks::append_pairs;
use md_history::Contents;
use md_words::Shape;
use std::alloc::{AllocError, Global};

/// The contents of a field in which every count is even: the pairs of the nodes that its buckets
/// reach, without the removed ones, and the values behind the heads of its queues. `AllocError` if
/// memory runs out.
///
/// Takes time linear in the heads and the nodes, and one sort by std of each map's pairs.
pub fn read_off(alloc: Global, shape: &Shape, words: &[u64]) -> Result<Contents, AllocError>
    requires { IsStoreField shape.now words.now }
    ensures { IfOk result (λ c. c ≡ state_of_store (logical_words shape.now words.now)) }
{
    read_off_from(alloc, shape, &words)
}

/// The contents of a field whose words stand anywhere, as `read_off` gives them: every count is
/// even. `AllocError` if memory runs out.
///
/// Goes along each bucket and each queue once, and along 8 queues side by side, since each step
/// waits for memory. Takes the time of `read_off`. Besides the contents it keeps the pairs of one
/// map, and 8 lists of values, none longer than the longest queue.
pub fn read_off_from<W: FieldWords>(
    alloc: Global,
    shape: &Shape,
    words: &W,
) -> Result<Contents, AllocError>
    requires { IsStoreField shape.now (W.words words.now) }
    ensures { IfOk result (λ c. c ≡ state_of_store (logical_words shape.now (W.words words.now))) }
{
    let mut contents = read_off_maps_from(alloc, shape, words, 0)?;
    let mut walks = new_group(alloc)?;
    let mut queue = 0;
    'groups: while queue < shape.queues {
        walk_group(&mut walks, shape, words, queue)?;
        push_walks(&mut contents, queue, &walks)?;
        queue += walks.len() as u32;
    }
    Ok(contents)
}

/// The maps from number `first` on, of those contents that `read_off_from` gives: the other maps
/// and all queues are empty. Every count is even. `first` is any number. `AllocError` if memory
/// runs out.
///
/// Takes time linear in the buckets and the nodes of the maps that it reads, and in the number of
/// maps and queues, and one sort by std of each map's pairs. It reads no head of another map, and
/// walks no queue. Besides the contents it keeps the pairs of one map.
pub fn read_off_maps_from<W: FieldWords>(
    alloc: Global,
    shape: &Shape,
    words: &W,
    first: u32,
) -> Result<Contents, AllocError>
    requires { IsStoreField shape.now (W.words words.now) }
    ensures { IfOk result (λ c. MapsFrom first c
        (state_of_store (logical_words shape.now (W.words words.now)))) }
{
    let mut contents = Contents::empty(alloc, shape.maps, shape.queues)?;
    for map in first..shape.maps {
        let pairs = pairs_of(alloc, shape, words, map)?;
        contents.set_map(map, pairs)?;
    }
    Ok(contents)
}

// The pairs of a map, by bucket and then by key.
fn pairs_of<W: FieldWords>(
    alloc: Global,
    shape: &Shape,
    words: &W,
    map: u32,
) -> Result<Vec<(u64, u64)>, AllocError>
    requires store { IsStoreField shape.now (W.words words.now) }
    requires map { map < shape.now.maps }
    ensures { IfOk result
        (λ pairs. pairs.items ≡ pairs_of_map (logical_words shape.now (W.words words.now)) map) }
{
    let mut pairs = Vec::new(alloc);
    for bucket in 0..shape.buckets {
        append_pairs(&mut pairs, shape, words, map, bucket)?;
    }
    Ok(pairs)
}

// Fills the empty queues from a number on with what walks have read.
fn push_walks(contents: &mut Contents, first: u32, walks: &[QueueWalk]) -> Result<(), AllocError>
    requires within { first + length walks.now ≤ length contents.old.queues }
    requires few { length contents.old.queues < 2 ^ 32 }
    requires empty { EachWalk (λ queue walk. queue_at contents.old queue ≡ []) first walks.now }
    ensures { OnOk result (AreFilled first walks.now contents.old contents.new) }
{
    for (i, walk) in walks.iter().enumerate() {
        push_values(contents, first + i as u32, &walk.values)?;
    }
    Ok(())
}

// Fills an empty queue with values.
fn push_values(contents: &mut Contents, queue: u32, values: &[u64]) -> Result<(), AllocError>
    requires queue { queue < length contents.old.queues }
    requires empty { queue_at contents.old queue ≡ [] }
    ensures { OnOk result (contents.new ≡ with_queue contents.old queue values.now) }
{
    for value in values {
        contents.push(queue, *value)?;
    }
    Ok(())
}
