//! Maps and queues for one thread, in plain collections.

use md_history::{Line, Op, Reply};
use std::alloc::AllocGlobal;
use std::collections::{BTreeMap, VecDeque};
use std::process::Abort;

#[derive(Drop)]
pub(super) struct Plain {
    pub(super) maps: Vec<BTreeMap<u64, u64>>,
    pub(super) queues: Vec<VecDeque<u64>>,
}

impl Plain {
    // So many maps and queues, with nothing in them.
    pub(super) fn empty<R: Abort + AllocGlobal>(rt: &R, maps: u32, queues: u32) -> Plain {
        let mut plain = Plain {
            maps: Vec::new(rt.alloc()),
            queues: Vec::new(rt.alloc()),
        };
        for made in 0..maps {
            let _ = made;
            plain
                .maps
                .push(BTreeMap::new(rt.alloc()))
                .expect(rt, "memory");
        }
        for made in 0..queues {
            let _ = made;
            plain
                .queues
                .push(VecDeque::new(rt.alloc()))
                .expect(rt, "memory");
        }
        plain
    }

    // Makes an operation. `None` if its map or its queue isn't there.
    pub(super) fn make<R: Abort>(&mut self, rt: &R, op: Op) -> Option<Reply> {
        match op {
            Op::Get { map, .. }
            | Op::Insert { map, .. }
            | Op::Remove { map, .. }
            | Op::Put { map, .. } => {
                let map = self.maps.get_mut(map as usize)?;
                Some(on_map(rt, map, op))
            }
            Op::Enqueue { queue, .. }
            | Op::Dequeue { queue }
            | Op::Front { queue }
            | Op::Line { queue, .. } => {
                let queue = self.queues.get_mut(queue as usize)?;
                Some(on_queue(rt, queue, op))
            }
        }
    }
}

// Makes an operation of a map.
fn on_map<R: Abort>(rt: &R, map: &mut BTreeMap<u64, u64>, op: Op) -> Reply {
    match op {
        Op::Get { key, .. } => Reply::Value(map.get(&key).copied()),
        Op::Remove { key, .. } => Reply::Value(map.remove(&key)),
        Op::Insert { key, value, .. } => Reply::Flag(insert(rt, map, key, value)),
        Op::Put { key, value, .. } => Reply::Value(put(rt, map, key, value)),
        _ => Reply::Nothing,
    }
}

// Inserts a key if it is absent. Whether it was.
fn insert<R: Abort>(rt: &R, map: &mut BTreeMap<u64, u64>, key: u64, value: u64) -> bool {
    let absent = !map.contains_key(&key);
    if absent {
        let kept: Result<_, _> = map.insert(key, value);
        kept.expect(rt, "memory");
    }
    absent
}

// Sets a key's value. Its old one.
fn put<R: Abort>(rt: &R, map: &mut BTreeMap<u64, u64>, key: u64, value: u64) -> Option<u64> {
    let old: Result<_, _> = map.insert(key, value);
    old.expect(rt, "memory")
}

// Makes an operation of a queue.
fn on_queue<R: Abort>(rt: &R, queue: &mut VecDeque<u64>, op: Op) -> Reply {
    match op {
        Op::Enqueue { value, .. } => {
            queue.push_back(value).expect(rt, "memory");
            Reply::Nothing
        }
        Op::Dequeue { .. } => Reply::Value(queue.pop_front()),
        Op::Front { .. } => Reply::Value(queue.front().copied()),
        Op::Line { n, .. } => Reply::Line(line_of(queue, n)),
        _ => Reply::Nothing,
    }
}

// The first values of a queue, at most so many.
fn line_of(queue: &VecDeque<u64>, n: u8) -> Line {
    let mut line = Line {
        count: 0,
        values: [0; 12],
    };
    for i in 0..n.min(12) {
        let Some(value) = queue.get(i as usize) else {
            break;
        };
        line.values[i as usize] = *value;
        line.count = i + 1;
    }
    line
}
