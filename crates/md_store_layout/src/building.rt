//! A field that is being laid: its nodes are written one after another, each behind the last of its
//! bucket or its queue.

ghost use Rattle.std.specs.Prelude.{◌≡◌, ◌<◌, ◌≤◌, ◌+◌, ◌^◌, ◌++◌, List, [], ◌∷◌, length, IfOk};
ghost use Rattle.md_words.specs.Layout.{words_of, IsNode};
ghost use Rattle.md_words.specs.LayoutLaws.{IsField};
ghost use Rattle.md_machine.specs.declared.node.Structure.TheVariants.{Bucket, Queue};
ghost use Rattle.md_store_law.specs.Laid.{LaidNode, IsLaid, numbers_of, naming};
ghost use Rattle.md_store_law.specs.Laid.{dummies, pair_nodes, value_nodes, appended};

use md_words::{Content, Shape};
use std::alloc::AllocError;

/// The words of a field without contents, in the memory of a list: each queue has its dummy, and no
/// other node is laid. `AllocError` if memory runs out: the list may have too little. Takes time
/// linear in the words and the queues.
pub fn empty_field(mut words: Vec<u64>, shape: &Shape) -> Result<Vec<u64>, AllocError>
    requires { shape.now.queues ≤ shape.now.base }
    ensures { IfOk result (λ words. IsLaid shape.now words.items (dummies shape.now.queues)) }
{
    words.clear();
    words.resize(shape.words() as usize, 0)?;
    for queue in 0..shape.queues {
        let dummy = naming(queue + 1);
        words[shape.queue_head(queue) as usize] = dummy;
        words[shape.queue_tail(queue) as usize] = dummy;
    }
    Ok(words)
}

/// Lays the pairs of a bucket that has none, in rising order of their keys: the first becomes the
/// node `first`. Returns the number of the next node.
pub fn append_pairs(
    words: &mut [u64],
    shape: &Shape,
    map: u32,
    bucket: u32,
    pairs: &[(u64, u64)],
    first: u32,
) -> u32
    requires field { IsField shape.now words.old }
    requires map { map < shape.now.maps }
    requires bucket { bucket < shape.now.buckets }
    requires first { 1 ≤ first }
    requires room { first + length pairs.now ≤ shape.now.base + 1 }
    ensures next { result ≡ first + length pairs.now }
    ensures field { IsField shape.now words.new }
    ensures laid { (nodes : List LaidNode) → IsLaid shape.now words.old nodes
        → length nodes + 1 ≡ first → numbers_of nodes (Bucket map bucket) ≡ []
        → IsLaid shape.now words.new (nodes ++ pair_nodes map bucket pairs.now) }
{
    let mut end = shape.map_head(map, bucket as u64);
    let mut node = first;
    for i in 0..pairs.len() {
        let (key, value) = pairs[i];
        append(words, shape, end, node, key, value);
        end = shape.node_next(node);
        node += 1;
    }
    node
}

/// Lays the values of a queue that has its dummy alone, in order: the first becomes the node
/// `first` with the rank 1. Returns the number of the next node.
pub fn append_values(
    words: &mut [u64],
    shape: &Shape,
    queue: u32,
    values: &[u64],
    first: u32,
) -> u32
    requires field { IsField shape.now words.old }
    requires queue { queue < shape.now.queues }
    requires dummies { shape.now.queues < first }
    requires room { first + length values.now ≤ shape.now.base + 1 }
    ensures next { result ≡ first + length values.now }
    ensures field { IsField shape.now words.new }
    ensures laid { (nodes : List LaidNode) → IsLaid shape.now words.old nodes
        → length nodes + 1 ≡ first → numbers_of nodes (Queue queue) ≡ (queue + 1) ∷ []
        → IsLaid shape.now words.new (nodes ++ value_nodes queue 1 values.now) }
{
    let tail = shape.queue_tail(queue);
    let mut end = shape.node_next(queue + 1);
    let mut node = first;
    let mut rank = 1;
    for value in values {
        append(words, shape, end, node, rank, *value);
        words[tail as usize] = naming(node);
        end = shape.node_next(node);
        node += 1;
        rank += 1;
    }
    node
}

// Writes a node, and names it in the word in which its bucket or its queue ends.
fn append(words: &mut [u64], shape: &Shape, end: u32, node: u32, key: u64, value: u64)
    requires field { IsField shape.now words.old }
    requires end { end < words_of shape.now }
    requires node { IsNode shape.now node }
    ensures written { words.new ≡ appended shape.now words.old end node key value }
{
    words[shape.node_key(node) as usize] = key;
    words[shape.node_value(node) as usize] = value;
    words[end as usize] = naming(node);
}

// The word that names a node, with the count 0.
#[tactic(auto, unfolding(md_words::specs::Link::link_value))]
fn naming(node: u32) -> u64
    requires { node < 2 ^ 31 }
    ensures { result ≡ naming node }
{
    let content = Content {
        value: 2 * node,
        count: 0,
    };
    content.word()
}
