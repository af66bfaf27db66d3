//! A field as it was opened.

use crate::node::PlacedNode;
use md_words::Shape;
use std::collections::LinkedList;

/// The shape of a field, its words when it was opened, and the nodes that were placed then.
#[derive(Drop)]
pub struct Opening {
    pub shape: Shape,
    pub words: LinkedList<u64>,
    pub placed: LinkedList<PlacedNode>,
}
