//! Walks along the next words of a field in which no descriptor stands.

ghost use Rattle.std.specs.Prelude.{◌≡◌, ◌<◌, ◌++◌, length, slice_index, OnOk};
ghost use Rattle.md_words.specs.Content.{value_of};
ghost use Rattle.md_words.specs.Layout.{IsNode, node_count};
ghost use Rattle.md_words.specs.LayoutLaws.{IsField};
ghost use Rattle.md_machine.specs.LogicalHeap.{next_of};
ghost use Rattle.md_store_law.specs.Compacted.{pairs_in};
ghost use Rattle.md_store_law.specs.Field.{logical_words, IsStoreField};

use crate::field_words::FieldWords;
use md_words::{Content, Shape};
use std::alloc::AllocError;

/// Appends the pairs of a bucket, in rising order of their keys, without the removed ones.
pub(crate) fn append_pairs<W: FieldWords>(
    pairs: &mut Vec<(u64, u64)>,
    shape: &Shape,
    words: &W,
    map: u32,
    bucket: u32,
) -> Result<(), AllocError>
    requires store { IsStoreField shape.now (W.words words.now) }
    requires map { map < shape.now.maps }
    requires bucket { bucket < shape.now.buckets }
    ensures { OnOk result (pairs.new.items ≡ pairs.old.items
        ++ pairs_in shape.now (W.words words.now) map bucket) }
{
    let mut value = value_at(words, shape.map_head(map, bucket as u64));
    for step in 0..node_count(shape) {
        let node = value / 2;
        if node == 0 {
            return Ok(());
        }
        value = next_of(shape, words, node);
        if value % 2 == 0 {
            pairs.push(pair_of(shape, words, node))?;
        }
    }
    Ok(())
}

/// The number of nodes: no walk along next words is longer.
#[tactic(auto, unfolding(md_words::specs::Layout::node_count))]
pub(crate) fn node_count(shape: &Shape) -> u32
    ensures { result ≡ node_count shape.now }
{
    shape.base + shape.lanes * shape.nodes
}

/// The value of a counted word.
#[inline]
pub(crate) fn value_at<W: FieldWords>(words: &W, word: u32) -> u32
    requires { word < length (W.words words.now) }
    ensures { result ≡ value_of (slice_index (W.words words.now) word) }
{
    Content::of(words.word(word)).value
}

/// The value of a node's next word.
#[inline]
pub(crate) fn next_of<W: FieldWords>(shape: &Shape, words: &W, node: u32) -> u32
    requires field { IsField shape.now (W.words words.now) }
    requires node { IsNode shape.now node }
    ensures { result ≡ next_of (logical_words shape.now (W.words words.now)) node }
{
    value_at(words, shape.node_next(node))
}

/// The key and the value of a node.
#[inline]
pub(crate) fn pair_of<W: FieldWords>(shape: &Shape, words: &W, node: u32) -> (u64, u64)
    requires field { IsField shape.now (W.words words.now) }
    requires node { IsNode shape.now node }
    ensures { let w = logical_words shape.now (W.words words.now) in
        result ≡ (w.key_of node, w.value_of_node node) }
{
    (
        words.word(shape.node_key(node)),
        words.word(shape.node_value(node)),
    )
}
