//! What the maps and the queues contain, in one place.

ghost use Rattle.std.specs.Prelude.{◌≡◌, ◌<◌, ◌≤◌, [], ◌∷◌, ◌++◌, map, length, take, drop};
ghost use Rattle.std.specs.Prelude.{slice_get, is_none, IfOk, OnOk, OnErr};
ghost use Rattle.std.specs.FinMap as fin;
ghost use Rattle.std.specs.Ordering.{nat_cmp};
ghost use Rattle.md_history.specs.State.{State, empty_state, map_at, queue_at, with_map};
ghost use Rattle.md_history.specs.State.{with_queue, line_of, after};
ghost use Rattle.md_history.specs.Contents.{table_of, table_of_pairs};
ghost use Rattle.md_history.specs.declared.acts.Op.TheVariants.{Insert};

use crate::acts::{Line, MAX_LINE};
use std::alloc::{AllocError, Global};
use std::collections::{BTreeMap, VecDeque};
use std::marker::Model;

/// Ordered maps and queues, numbered from 0. Contracts see finite maps and lists.
///
/// A call on one key of a map of n keys takes time in the order of log n, one on a queue constant
/// time. Each call needs its map or queue to exist.
#[derive(Drop)]
pub struct Contents {
    maps: Vec<BTreeMap<u64, u64>>,
    queues: Vec<VecDeque<u64>>,
}

impl Model for Contents {
    ghost use Rattle.md_history.specs.State.{State, state_code};
    ghost use Rattle.md_history.specs.Contents.{state_of};

    ghost Value = { State };

    ghost coded = { state_code };

    ghost view = { λ c. state_of c.maps.items c.queues.items };
}

impl Contents {
    /// So many maps and queues, with nothing in them. `AllocError` if memory runs out.
    pub fn empty(alloc: Global, maps: u32, queues: u32) -> Result<Contents, AllocError>
        ensures { IfOk result (λ c. c ≡ empty_state maps queues) }
    {
        let mut all = Vec::new(alloc);
        for made in 0..maps {
            all.push(BTreeMap::new(alloc))?;
        }
        let mut lines = Vec::new(alloc);
        for made in 0..queues {
            lines.push(VecDeque::new(alloc))?;
        }
        Ok(Contents {
            maps: all,
            queues: lines,
        })
    }

    /// Sets the value of a key, and returns its old value, or `None` if the key was absent.
    /// `AllocError` if memory runs out; then nothing changed.
    pub fn put(&mut self, map: u32, key: u64, value: u64) -> Result<Option<u64>, AllocError>
        requires { map < length self.old.maps }
        ensures before { IfOk result (λ before. before ≡ fin.get (map_at self.old map) key) }
        ensures ok { OnOk result (self.new
            ≡ with_map self.old map (fin.insert (map_at self.old map) key value)) }
        ensures err { OnErr result (self.new ≡ self.old) }
    {
        Ok(self.maps[map as usize].insert(key, value)?)
    }

    /// Sets a whole map: it has these pairs, and nothing of what it had. Of several pairs with one key
    /// the last one counts. `AllocError` if memory runs out; then nothing changed.
    ///
    /// std builds the map: it sorts the pairs once, and no pair is searched for.
    pub fn set_map(&mut self, map: u32, pairs: Vec<(u64, u64)>) -> Result<(), AllocError>
        requires { map < length self.old.maps }
        ensures ok { OnOk result (self.new ≡ with_map self.old map (table_of_pairs pairs.items)) }
        ensures err { OnErr result (self.new ≡ self.old) }
    {
        self.maps[map as usize] = pairs.into_iter().collect(self.alloc())?;
        Ok(())
    }

    /// Appends a value to a queue. `AllocError` if memory runs out; then nothing changed.
    pub fn push(&mut self, queue: u32, value: u64) -> Result<(), AllocError>
        requires { queue < length self.old.queues }
        ensures ok { OnOk result (self.new
            ≡ with_queue self.old queue (queue_at self.old queue ++ value ∷ [])) }
        ensures err { OnErr result (self.new ≡ self.old) }
    {
        self.queues[queue as usize].push_back(value)?;
        Ok(())
    }

    /// The map with this number. It takes no memory.
    pub fn map(&self, map: u32) -> &BTreeMap<u64, u64>
        requires { map < length self.now.maps }
        ensures { table_of result.now ≡ map_at self.now map }
    {
        &self.maps[map as usize]
    }

    /// The queue with this number, its first value first. It takes no memory.
    pub fn queue(&self, queue: u32) -> &VecDeque<u64>
        requires { queue < length self.now.queues }
        ensures { result.now.items ≡ queue_at self.now queue }
    {
        &self.queues[queue as usize]
    }

    /// All maps, in order.
    pub fn maps(&self) -> &[BTreeMap<u64, u64>]
        ensures { map table_of result.now ≡ self.now.maps }
    {
        &self.maps
    }

    /// All queues, in order.
    pub fn queues(&self) -> &[VecDeque<u64>]
        ensures { map (λ q. q.items) result.now ≡ self.now.queues }
    {
        &self.queues
    }

    // Removes a key, and returns its old value.
    pub(crate) fn remove(&mut self, map: u32, key: u64) -> Option<u64>
        requires { map < length self.old.maps }
        ensures before { result ≡ fin.get (map_at self.old map) key }
        ensures after { self.new ≡ with_map self.old map (fin.remove (map_at self.old map) key) }
    {
        self.maps[map as usize].remove(&key)
    }

    // Removes the first value of a queue.
    pub(crate) fn pop(&mut self, queue: u32) -> Option<u64>
        requires { queue < length self.old.queues }
        ensures first { result ≡ slice_get (queue_at self.old queue) 0 }
        ensures after { self.new ≡ with_queue self.old queue (drop 1 (queue_at self.old queue)) }
    {
        self.queues[queue as usize].pop_front()
    }

    /// The value of a key of a map, or `None` if the key is absent. It takes no memory.
    pub fn get(&self, map: u32, key: u64) -> Option<u64>
        requires { map < length self.now.maps }
        ensures { result ≡ fin.get (map_at self.now map) key }
    {
        self.maps[map as usize].get(&key).copied()
    }

    // The first value of a queue.
    pub(crate) fn first(&self, queue: u32) -> Option<u64>
        requires { queue < length self.now.queues }
        ensures { result ≡ slice_get (queue_at self.now queue) 0 }
    {
        self.queues[queue as usize].front().copied()
    }

    // The first `n` values of a queue, or all if there are fewer.
    pub(crate) fn line(&self, queue: u32, n: u8) -> Line
        requires queue { queue < length self.now.queues }
        requires n { n ≤ MAX_LINE }
        ensures { result ≡ line_of (take n (queue_at self.now queue)) }
    {
        let items = &self.queues[queue as usize];
        let count = items.len().min(n as usize);
        let mut values = [0; MAX_LINE];
        for i in 0..count {
            values[i] = items[i];
        }
        Line {
            count: count as u8,
            values,
        }
    }

    // Adds a key if it is absent, and returns whether it was.
    pub(crate) fn add(&mut self, map: u32, key: u64, value: u64) -> Result<bool, AllocError>
        requires { map < length self.old.maps }
        ensures absent { IfOk result (λ b. b ≡ is_none (fin.get (map_at self.old map) key)) }
        ensures ok { OnOk result (self.new ≡ after self.old (Insert map key value)) }
        ensures err { OnErr result (self.new ≡ self.old) }
    {
        if self.get(map, key).is_some() {
            return Ok(false);
        }
        self.put(map, key, value)?;
        Ok(true)
    }

    // No maps and no queues, on the same allocator.
    pub(crate) fn none(&self) -> Contents {
        Contents {
            maps: Vec::new(*self.maps.allocator()),
            queues: Vec::new(*self.maps.allocator()),
        }
    }

    pub(crate) fn alloc(&self) -> Global {
        *self.maps.allocator()
    }
}
