//! Where a node belongs.

/// A list of nodes that begins at a bucket's head, or a queue.
#[derive(Clone, Copy)]
pub enum Structure {
    Bucket { map: u32, bucket: u32 },
    Queue { queue: u32 },
}

/// A node that is placed, and where.
#[derive(Clone, Copy)]
pub struct PlacedNode {
    pub node: u32,
    pub structure: Structure,
}
