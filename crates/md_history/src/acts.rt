//! Operations on maps and queues, their replies, and lists of both.

ghost use Rattle.std.specs.Prelude.{◌≡◌, [], ◌∷◌, ◌++◌, length, slice_get, OnOk, OnErr};
ghost use Rattle.md_history.specs.Act.{act_of};

use crate::kept::KeptAct;
use std::alloc::{AllocError, Global};
use std::marker::Model;

/// An operation on one map or one queue. Maps and queues are numbered from 0; keys and values are
/// any `u64`.
#[derive(Clone, Copy, Debug, PartialEq, Eq)]
pub enum Op {
    /// Looks up a key.
    Get { map: u32, key: u64 },
    /// Adds a key with its value if the key is absent. It never replaces a value.
    Insert { map: u32, key: u64, value: u64 },
    /// Removes a key with its value.
    Remove { map: u32, key: u64 },
    /// Sets a key's value: it replaces the one that the key has, or adds the key.
    Put { map: u32, key: u64, value: u64 },
    /// Appends a value.
    Enqueue { queue: u32, value: u64 },
    /// Removes the first value.
    Dequeue { queue: u32 },
    /// Looks at the first value.
    Front { queue: u32 },
    /// Looks at the first `n` values; `n` is from 1 to [`MAX_LINE`].
    Line { queue: u32, n: u8 },
}

/// The most values that one `Line` looks at.
pub const MAX_LINE: usize = 12;

/// The first values of a queue, in order. It is copied whole: 104 bytes.
#[derive(Clone, Copy, Debug, PartialEq, Eq)]
pub struct Line {
    /// How many values there are: at most the `n` of the operation, and fewer if the queue has
    /// fewer.
    pub count: u8,
    /// The values from the first on. Each place past `count` is 0.
    pub values: [u64; MAX_LINE],
}

/// What an operation replies.
#[derive(Clone, Copy, Debug, PartialEq, Eq)]
pub enum Reply {
    /// Of `Get`, `Remove` and `Put`: the value that the key had; of `Dequeue` and `Front`: the first
    /// value. `None` if there was none.
    Value(Option<u64>),
    /// Of `Insert`: whether the key was absent, so that it was added.
    Flag(bool),
    /// Of `Enqueue`.
    Nothing,
    /// Of `Line`: the first `n` values, or all if there are fewer.
    Line(Line),
}

/// An operation with its reply.
#[derive(Clone, Copy, Debug, PartialEq, Eq)]
pub struct Act {
    pub op: Op,
    pub reply: Reply,
}

/// The acts of a transaction, in order. Contracts see a list. An act takes 40 bytes, and a line 104
/// more.
#[derive(Debug, Drop)]
pub struct Acts {
    items: Vec<KeptAct>,
}

impl Model for Acts {
    ghost use Rattle.std.specs.Prelude.{List, map};
    ghost use Rattle.md_history.specs.declared.acts.Act.{Act};
    ghost use Rattle.md_history.specs.Kept.{kept_as};

    ghost Value = { List Act };

    ghost view = { λ a. map kept_as a.items.items };
}

impl Acts {
    /// An empty list. It takes no memory until something is pushed.
    pub fn new(alloc: Global) -> Acts
        ensures { result ≡ [] }
    {
        Acts {
            items: Vec::new(alloc),
        }
    }

    /// Appends an act. `AllocError` if memory runs out; then nothing changed.
    pub fn push(&mut self, op: Op, reply: Reply) -> Result<(), AllocError>
        ensures ok { OnOk result (self.new ≡ self.old ++ act_of op reply ∷ []) }
        ensures err { OnErr result (self.new ≡ self.old) }
    {
        let kept = KeptAct::of(*self.items.allocator(), op, reply)?;
        self.items.push(kept)?;
        Ok(())
    }

    /// How many acts there are.
    pub fn len(&self) -> usize
        ensures { result ≡ length self.now }
    {
        self.items.len()
    }

    /// The act at a place, from 0. `None` exactly where there is none.
    pub fn get(&self, place: usize) -> Option<Act>
        ensures { result ≡ slice_get self.now place }
    {
        self.items.get(place).map(|kept| kept.act())
    }
}
