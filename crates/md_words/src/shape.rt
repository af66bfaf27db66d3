//! The numbers of a field.

ghost use Rattle.std.specs.Prelude.{◌≡◌, ◌<◌, ◌≤◌, ◌↔◌, ℕ, IsOk, IfOk};
ghost use Rattle.md_words.specs.declared.limits.TheConstants.{MAX_WORDS};
ghost use Rattle.md_words.specs.Limits.{LanesFit, NodesFit, BaseFits, TriesFit, MapsFit};
ghost use Rattle.md_words.specs.Limits.{BucketsFit, QueuesFit, InRange, count_of_words};

use crate::limits::{
    DESC_WORDS, LANES, MAX_BASE, MAX_BUCKETS, MAX_MAPS, MAX_NODES, MAX_QUEUES, MAX_WORDS,
};

/// How many of each thing a field has. Each number is in its range, and the field has at most
/// `MAX_WORDS` words.
#[derive(Clone, Copy, Debug, PartialEq, Eq)]
pub struct Shape {
    /// 1 to `LANES`.
    pub lanes: u32,
    /// Nodes of each lane: 1 to `MAX_NODES`.
    pub nodes: u32,
    /// Nodes that belong to no lane: 0 to `MAX_BASE`.
    pub base: u32,
    /// How many attempts a lane may begin, with its one descriptor: 1 to `MAX_TRIES`.
    pub tries: u32,
    /// 1 to `MAX_MAPS`.
    pub maps: u32,
    /// Buckets of each map: 1 to `MAX_BUCKETS`.
    pub buckets: u32,
    /// 0 to `MAX_QUEUES`.
    pub queues: u32,
    pub ghost in_range: { InRange lanes nodes base tries maps buckets queues },
    pub ghost fits: { count_of_words lanes nodes base maps buckets queues ≤ MAX_WORDS },
}

/// Why numbers make no shape: the first of them that is out of its range, or their sum.
#[derive(Clone, Copy, Debug, PartialEq, Eq)]
pub enum ShapeFault {
    /// The number of lanes isn't from 1 to `LANES`.
    Lanes,
    /// The number of nodes of a lane isn't from 1 to `MAX_NODES`.
    Nodes,
    /// The number of base nodes is greater than `MAX_BASE`.
    Base,
    /// The number of attempts of a lane is 0.
    Tries,
    /// The number of maps isn't from 1 to `MAX_MAPS`.
    Maps,
    /// The number of buckets isn't from 1 to `MAX_BUCKETS`.
    Buckets,
    /// The number of queues is greater than `MAX_QUEUES`.
    Queues,
    /// Every number is in its range, and the field would have this many words, which is more than
    /// `MAX_WORDS`.
    TooLarge { words: u64 },
}

impl Shape {
    ghost use Rattle.md_words.specs.Layout.{HasNumbers};

    /// A shape of these numbers. The fault names the first of them that is out of its range. It is
    /// TooLarge where all are in range and the field would have more than `MAX_WORDS` words.
    pub fn new(
        lanes: u32,
        nodes: u32,
        base: u32,
        tries: u32,
        maps: u32,
        buckets: u32,
        queues: u32,
    ) -> Result<Shape, ShapeFault>
        ensures ok { IsOk result
            ↔ (InRange lanes nodes base tries maps buckets queues
            × (count_of_words lanes nodes base maps buckets queues ≤ MAX_WORDS)) }
        ensures numbers { IfOk result (λ shape.
            HasNumbers shape lanes nodes base tries maps buckets queues) }

        ensures lanes { (result ≡ Err ShapeFault.Lanes) ↔ ¬ LanesFit lanes }
        ensures nodes { (result ≡ Err ShapeFault.Nodes)
            ↔ (LanesFit lanes × ¬ NodesFit nodes) }
        ensures base { (result ≡ Err ShapeFault.Base)
            ↔ (LanesFit lanes × NodesFit nodes × ¬ BaseFits base) }
        ensures tries { (result ≡ Err ShapeFault.Tries)
            ↔ (LanesFit lanes × NodesFit nodes × BaseFits base × ¬ TriesFit tries) }
        ensures maps { (result ≡ Err ShapeFault.Maps)
            ↔ (LanesFit lanes × NodesFit nodes × BaseFits base × TriesFit tries
            × ¬ MapsFit maps) }
        ensures buckets { (result ≡ Err ShapeFault.Buckets)
            ↔ (LanesFit lanes × NodesFit nodes × BaseFits base × TriesFit tries × MapsFit maps
            × ¬ BucketsFit buckets) }
        ensures queues { (result ≡ Err ShapeFault.Queues)
            ↔ (LanesFit lanes × NodesFit nodes × BaseFits base × TriesFit tries × MapsFit maps
            × BucketsFit buckets × ¬ QueuesFit queues) }
        ensures too_large { (words : ℕ) → (result ≡ Err (ShapeFault.TooLarge words))
            ↔ (InRange lanes nodes base tries maps buckets queues × (MAX_WORDS < words)
            × (words ≡ count_of_words lanes nodes base maps buckets queues)) }
    {
        if lanes < 1 || lanes > LANES {
            return Err(ShapeFault::Lanes);
        }
        if nodes < 1 || nodes > MAX_NODES {
            return Err(ShapeFault::Nodes);
        }
        if base > MAX_BASE {
            return Err(ShapeFault::Base);
        }
        if tries < 1 {
            return Err(ShapeFault::Tries);
        }
        if maps < 1 || maps > MAX_MAPS {
            return Err(ShapeFault::Maps);
        }
        if buckets < 1 || buckets > MAX_BUCKETS {
            return Err(ShapeFault::Buckets);
        }
        if queues > MAX_QUEUES {
            return Err(ShapeFault::Queues);
        }
        let words = count_of_words(lanes, nodes, base, maps, buckets, queues);
        if words > MAX_WORDS {
            return Err(ShapeFault::TooLarge { words });
        }
        Ok(Shape {
            lanes,
            nodes,
            base,
            tries,
            maps,
            buckets,
            queues,
        })
    }
}

/// The number of words of a field of these numbers.
fn count_of_words(lanes: u32, nodes: u32, base: u32, maps: u32, buckets: u32, queues: u32) -> u64
    requires lanes { LanesFit lanes }
    requires nodes { NodesFit nodes }
    requires base { BaseFits base }
    requires maps { MapsFit maps }
    requires buckets { BucketsFit buckets }
    requires queues { QueuesFit queues }
    ensures { result ≡ count_of_words lanes nodes base maps buckets queues }
{
    let heads = maps as u64 * buckets as u64;
    let nodes = base as u64 + lanes as u64 * nodes as u64;
    1 + heads + 2 * queues as u64 + 3 * nodes + DESC_WORDS as u64 * lanes as u64
}
