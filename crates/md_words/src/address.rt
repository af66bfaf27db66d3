//! The word of each place of a field.

ghost use Rattle.std.specs.Prelude.{◌≡◌, ◌<◌, ◌≤◌, ◌%◌, ◌↔◌, IsTrue};
ghost use Rattle.md_words.specs.Place.{bucket_head, queue_head, queue_tail, node_key, node_value};
ghost use Rattle.md_words.specs.Place.{node_next, desc_status, read_word, read_content, slot_word};
ghost use Rattle.md_words.specs.Place.{slot_old, slot_new};

use crate::limits::{DESC_WORDS, FEW_BUCKETS, MANY_BUCKETS, MAX_BUCKETS, SET};
use crate::shape::Shape;

// A key's bucket. A remainder by a number that is known here takes a multiplication, and a division
// takes longer than all else that an address needs.
fn bucket_of(key: u64, buckets: u32) -> u32
    requires { 1 ≤ buckets }
    ensures { result ≡ key % buckets }
{
    match buckets {
        FEW_BUCKETS => (key % FEW_BUCKETS as u64) as u32,
        MANY_BUCKETS => (key % MANY_BUCKETS as u64) as u32,
        MAX_BUCKETS => (key % MAX_BUCKETS as u64) as u32,
        _ => (key % buckets as u64) as u32,
    }
}

#[tactic(auto, unfolding(crate::specs::Layout::address, crate::specs::Layout::words_of, crate::specs::Layout::node_count, crate::specs::Layout::desc_count, crate::specs::Layout::bucket_of))]
impl Shape {
    ghost use Rattle.md_words.specs.Layout.{Exists, address, bucket_of, words_of, first_queue};
    ghost use Rattle.md_words.specs.Layout.{first_node, first_desc, slots_start};
    ghost use Rattle.md_words.specs.PlaceAt.{IsCounted};

    /// The number of words of the field.
    pub fn words(&self) -> u64
        ensures { result ≡ words_of self.now }
    {
        self.first_desc() as u64 + DESC_WORDS as u64 * self.lanes as u64
    }

    /// The head of the bucket of a key in a map. The map exists.
    pub fn map_head(&self, map: u32, key: u64) -> u32
        requires { map < self.now.maps }
        ensures place { result ≡ address self.now (bucket_head map (bucket_of self.now key)) }
        ensures below { result < words_of self.now }
    {
        1 + map * self.buckets + bucket_of(key, self.buckets)
    }

    /// The head of a queue. The queue exists.
    pub fn queue_head(&self, queue: u32) -> u32
        requires { Exists self.now (queue_head queue) }
        ensures place { result ≡ address self.now (queue_head queue) }
        ensures below { result < words_of self.now }
    {
        self.first_queue() + 2 * queue
    }

    /// The tail of a queue. The queue exists.
    pub fn queue_tail(&self, queue: u32) -> u32
        requires { Exists self.now (queue_tail queue) }
        ensures place { result ≡ address self.now (queue_tail queue) }
        ensures below { result < words_of self.now }
    {
        self.first_queue() + 2 * queue + 1
    }

    /// The key of a node. Nodes are numbered from 1, and the node exists.
    pub fn node_key(&self, node: u32) -> u32
        requires { Exists self.now (node_key node) }
        ensures place { result ≡ address self.now (node_key node) }
        ensures below { result < words_of self.now }
    {
        self.first_node() + 3 * (node - 1)
    }

    /// The value of a node, which exists.
    pub fn node_value(&self, node: u32) -> u32
        requires { Exists self.now (node_value node) }
        ensures place { result ≡ address self.now (node_value node) }
        ensures below { result < words_of self.now }
    {
        self.first_node() + 3 * (node - 1) + 1
    }

    /// The next word of a node, which exists.
    pub fn node_next(&self, node: u32) -> u32
        requires { Exists self.now (node_next node) }
        ensures place { result ≡ address self.now (node_next node) }
        ensures below { result < words_of self.now }
    {
        self.first_node() + 3 * (node - 1) + 2
    }

    /// The status word of a descriptor. Descriptors are numbered from 0, and the descriptor exists.
    pub fn status(&self, desc: u32) -> u32
        requires { Exists self.now (desc_status desc) }
        ensures place { result ≡ address self.now (desc_status desc) }
        ensures below { result < words_of self.now }
    {
        self.first_desc() + DESC_WORDS * desc
    }

    /// Where a descriptor keeps the word of its read `i`. The descriptor exists, and `i` is below
    /// `SET`.
    pub fn read_word(&self, desc: u32, i: u8) -> u32
        requires { Exists self.now (read_word desc i) }
        ensures place { result ≡ address self.now (read_word desc i) }
        ensures below { result < words_of self.now }
    {
        self.status(desc) + 1 + 2 * i as u32
    }

    /// Where a descriptor keeps what its read `i` found. The descriptor exists, and `i` is below
    /// `SET`.
    pub fn read_content(&self, desc: u32, i: u8) -> u32
        requires { Exists self.now (read_content desc i) }
        ensures place { result ≡ address self.now (read_content desc i) }
        ensures below { result < words_of self.now }
    {
        self.status(desc) + 2 + 2 * i as u32
    }

    /// Where a descriptor keeps the word of its slot `j`. The descriptor exists, and `j` is below
    /// `SET`.
    pub fn slot_word(&self, desc: u32, j: u8) -> u32
        requires { Exists self.now (slot_word desc j) }
        ensures place { result ≡ address self.now (slot_word desc j) }
        ensures below { result < words_of self.now }
    {
        self.slots_start(desc) + 3 * j as u32
    }

    /// Where a descriptor keeps what the word of its slot `j` held. The descriptor exists, and `j`
    /// is below `SET`.
    pub fn slot_old(&self, desc: u32, j: u8) -> u32
        requires { Exists self.now (slot_old desc j) }
        ensures place { result ≡ address self.now (slot_old desc j) }
        ensures below { result < words_of self.now }
    {
        self.slots_start(desc) + 3 * j as u32 + 1
    }

    /// Where a descriptor keeps the new value of its slot `j`. The descriptor exists, and `j` is
    /// below `SET`.
    pub fn slot_new(&self, desc: u32, j: u8) -> u32
        requires { Exists self.now (slot_new desc j) }
        ensures place { result ≡ address self.now (slot_new desc j) }
        ensures below { result < words_of self.now }
    {
        self.slots_start(desc) + 3 * j as u32 + 2
    }

    /// Whether a word holds a value and a count: the heads of buckets and queues, the tails of
    /// queues, and the next words of nodes do.
    #[tactic(auto, using(crate::proofs::Counted::counted_past_nodes))]
    pub fn is_counted(&self, word: u32) -> bool
        ensures { IsTrue result ↔ IsCounted self.now word }
    {
        let nodes = self.first_node();
        if word < nodes {
            return word > 0;
        }
        word < self.first_desc() && (word - nodes) % 3 == 2
    }

    fn first_queue(&self) -> u32
        ensures { result ≡ first_queue self.now }
    {
        1 + self.maps * self.buckets
    }

    fn first_node(&self) -> u32
        ensures { result ≡ first_node self.now }
    {
        self.first_queue() + 2 * self.queues
    }

    fn first_desc(&self) -> u32
        ensures { result ≡ first_desc self.now }
    {
        self.first_node() + 3 * (self.base + self.lanes * self.nodes)
    }

    fn slots_start(&self, desc: u32) -> u32
        requires { Exists self.now (desc_status desc) }
        ensures { result ≡ slots_start self.now desc }
    {
        self.status(desc) + 1 + 2 * SET as u32
    }
}
