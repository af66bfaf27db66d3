//! The addresses of a field with two lanes.

use crate::tests::same;
use md_words::{SET, Shape};
use std::process::Abort;

// Two lanes with 16 nodes and four attempts each, one base node, a map with 64 buckets, and a
// queue.
fn two_lanes(rt: &impl Abort) -> Shape {
    Shape::new(2, 16, 1, 4, 1, 64, 1).expect(rt, "a shape")
}

// The head of the bucket of a key in the first map. `None` if there is no map.
fn map_word(shape: &Shape, key: u64) -> Option<u32> {
    if shape.maps == 0 {
        return None;
    }
    Some(shape.map_head(0, key))
}

// The head and the tail of a queue. `None` if there is no such queue.
#[tactic(auto, unfolding(md_words::specs::Layout::node_count))]
fn queue_words(shape: &Shape, queue: u32) -> Option<[u32; 2]> {
    if queue >= shape.queues {
        return None;
    }
    Some([shape.queue_head(queue), shape.queue_tail(queue)])
}

// The key, the value and the next word of a node. `None` if there is no such node.
#[tactic(auto, unfolding(md_words::specs::Layout::node_count))]
fn node_words(shape: &Shape, node: u32) -> Option<[u32; 3]> {
    if node == 0 || node > shape.base + shape.lanes * shape.nodes {
        return None;
    }
    Some([
        shape.node_key(node),
        shape.node_value(node),
        shape.node_next(node),
    ])
}

// The status word of a descriptor, the two words of its read `i` and the three of its slot `i`.
// `None` if there are none.
#[tactic(auto, unfolding(md_words::specs::Layout::desc_count))]
fn desc_words(shape: &Shape, desc: u32, i: u8) -> Option<[u32; 6]> {
    if desc >= shape.lanes || i >= SET {
        return None;
    }
    Some([
        shape.status(desc),
        shape.read_word(desc, i),
        shape.read_content(desc, i),
        shape.slot_word(desc, i),
        shape.slot_old(desc, i),
        shape.slot_new(desc, i),
    ])
}

// The first node and the descriptor of a lane. `None` if there is no such lane.
#[tactic(auto, unfolding(md_words::specs::Layout::desc_count))]
fn owned(shape: &Shape, lane: u32) -> Option<[u32; 2]> {
    if lane >= shape.lanes {
        return None;
    }
    Some([shape.node_of(lane, 0), shape.desc_of(lane)])
}

#[test]
fn heads_and_nodes(rt: HostRuntime) {
    let shape = two_lanes(&rt);
    let heads = [map_word(&shape, 1), map_word(&shape, 64)];
    same(&rt, &heads, &[Some(2), Some(1)]);
    same(&rt, &queue_words(&shape, 0), &Some([65, 66]));
    let nodes = [node_words(&shape, 1), node_words(&shape, 2)];
    same(&rt, &nodes, &[Some([67, 68, 69]), Some([70, 71, 72])]);
}

#[test]
fn descriptors(rt: HostRuntime) {
    let shape = two_lanes(&rt);
    let words = [
        desc_words(&shape, 0, 0),
        desc_words(&shape, 1, 0),
        desc_words(&shape, 1, 127),
    ];
    let want = [
        Some([166, 167, 168, 423, 424, 425]),
        Some([807, 808, 809, 1064, 1065, 1066]),
        Some([807, 1062, 1063, 1445, 1446, 1447]),
    ];
    same(&rt, &words, &want);
    same(
        &rt,
        &[owned(&shape, 0), owned(&shape, 1)],
        &[Some([2, 0]), Some([18, 1])],
    );
}

#[test]
fn counted_words(rt: HostRuntime) {
    let shape = two_lanes(&rt);
    for (word, want) in [
        (0, false),
        (2, true),
        (65, true),
        (66, true),
        (67, false),
        (72, true),
        (168, false),
    ] {
        same(&rt, &(word, shape.is_counted(word)), &(word, want));
    }
}
