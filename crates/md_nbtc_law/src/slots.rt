//! What a transaction keeps of a word that it writes, and of a lane that gave it nodes.

ghost use Rattle.std.specs.Prelude.{◌≡◌, None};

use crate::seen::Cleanup;
use md_machine::{Read, Write};

// This and the two below are all zero, so that one fill clears a set.
/// What stands at the free places of a set of recorded words.
pub const NO_READ: Read = Read {
    word: 0,
    content: 0,
    stood: false,
};

/// What stands at the free places of a set of slots.
pub const NO_SLOT: Slot = Slot {
    write: Write {
        slot: 0,
        word: 0,
        old: 0,
        new: 0,
    },
    cleanup: None,
};

/// What stands at the free places of a set of lots.
pub const NO_LOT: Lot = Lot { lane: 0, first: 0 };

/// A word that the transaction writes, and the cleanup that is kept with it.
#[derive(Clone, Copy)]
pub struct Slot {
    pub write: Write,
    pub cleanup: Option<Cleanup>,
}

impl Slot {
    /// A slot of a number, for a word with this old content and a new value.
    #[inline(always)]
    pub fn of(slot: u8, word: u32, old: u64, to: u32) -> Slot
        ensures { result ≡ record {
          write = record { slot = slot; word = word; old = old; new = to };
          cleanup = None;
        } }
    {
        Slot {
            write: Write {
                slot,
                word,
                old,
                new: to as u64,
            },
            cleanup: None,
        }
    }
}

/// The nodes of a lane from this place on are the transaction's.
#[derive(Clone, Copy)]
pub struct Lot {
    pub lane: u32,
    pub first: u32,
}
