//! A sink in memory.

ghost use Rattle.std.specs.Prelude.{◌≡◌, ◌<◌, ◌≤◌, ◌+◌, ◌↔◌, ◌⊎◌, [], Some, IfOk, IsErr, min};
ghost use Rattle.std.specs.Prelude.{length, vec_len, vec_capacity};
ghost use Rattle.std.specs.Io.KnownBytes.{WriteAppends};
ghost use Rattle.std.specs.List.{Contains};
ghost use Rattle.md_outside.specs.Causes.{HasCause, TakesSome, next_count};
ghost use Rattle.md_outside.specs.MemSink.{SinkState, MemTakes};
ghost use Rattle.md_outside.specs.Moves.{bytes_moved};

use crate::listed::is_listed;
use crate::{Failed, Sink};
use std::alloc::{AllocError, Global};
use std::marker::Model;

/// A sink in memory, for tests. It has room for a fixed number of bytes, and a write takes as many
/// as fit. A write fails if its number is in a list, or if no room is left. Each failure counts as
/// a fault. No write takes memory.
#[derive(Drop)]
pub struct MemSink {
    bytes: Vec<u8>,
    room: usize,
    failing: Vec<u32>,
    calls: u64,
    faults: u64,
}

impl Model for MemSink {
    ghost Value = { SinkState };

    ghost view = { λ s. record {
      held = s.bytes.items;
      room = s.room;
      failing = s.failing.items;
      calls = s.calls;
      faults = s.faults;
    } };

    // The sink has memory for all the room that is left, so no write takes more.
    ghost invariant = { λ s. vec_len s.bytes + s.room ≤ vec_capacity s.bytes };
}

impl MemSink {
    /// An empty sink with room for `room` bytes, for which it takes the memory. The writes whose
    /// numbers, counted from 1, are in `failing` fail. `AllocError` if memory runs out.
    pub fn new(alloc: Global, room: usize, failing: Vec<u32>) -> Result<MemSink, AllocError>
        ensures { IfOk result (λ s. s ≡ record {
          held = [];
          room = room;
          failing = failing.items;
          calls = 0;
          faults = 0;
        }) }
    {
        let bytes = Vec::with_capacity(alloc, room)?;
        Ok(MemSink {
            bytes,
            room,
            failing,
            calls: 0,
            faults: 0,
        })
    }

    /// The bytes that it holds, in the order of the writes.
    pub fn bytes(&self) -> &[u8]
        ensures { result.now ≡ self.now.held }
    {
        &self.bytes
    }
}

impl Sink for MemSink {
    ghost holds = { λ s. Some s.held };

    ghost takes = { MemTakes };

    ghost faults = { λ s. s.faults };

    fn write(&mut self, part: &[u8]) -> Result<usize, Failed>
        requires { 0 < length part.now }
        ensures bound { TakesSome result part.now }
        ensures bytes { WriteAppends (Some self.old.held) (Some self.new.held) result part.now }
        ensures step { MemTakes self.old (bytes_moved result part.now) self.new }
        ensures cause { HasCause self.old.faults self.new.faults result }

        // With `step`, these determine the result.
        ensures fails { IsErr result
            ↔ (Contains self.old.failing (next_count self.old.calls) ⊎ (self.old.room ≡ 0)) }
        ensures count { IfOk result (λ n. n ≡ min self.old.room (length part.now)) }
    {
        self.calls = self.calls.saturating_add(1);
        if self.room == 0 || is_listed(&self.failing, self.calls) {
            self.faults = self.faults.saturating_add(1);
            return Err(Failed);
        }
        let count = self.room.min(part.len());
        self.bytes.extend_from_slice(&part[..count]).unwrap();
        self.room -= count;
        Ok(count)
    }
}
