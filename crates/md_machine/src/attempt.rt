//! Attempts: in hand, and in the history.

use crate::certificate::{Certificate, Change};
use crate::node::PlacedNode;
use md_history::{Act, Entry};
use std::collections::LinkedList;

/// One use of a descriptor: the descriptor, with one of its serials.
#[derive(Clone, Copy)]
pub struct AttemptId {
    pub desc: u32,
    pub serial: u64,
}

/// The transaction that a pass has in hand.
#[derive(Drop)]
pub struct Hand {
    pub attempt: AttemptId,
    pub tag: u64,
    pub acts: LinkedList<Act>,
    /// An operation was begun and not ended.
    pub operating: bool,
    /// What its slots were changed by since the operation began, in order.
    pub changes: LinkedList<Change>,
    /// The nodes that were stored since the operation began.
    pub stored: LinkedList<u32>,
}

/// A recorded word with what was found there, and whether that stood at the ready step.
#[derive(Clone, Copy)]
pub struct Read {
    pub word: u32,
    pub content: u64,
    pub stood: bool,
}

/// A slot: the word in which it was installed, what that held, and the new value.
#[derive(Clone, Copy)]
pub struct Write {
    pub slot: u8,
    pub word: u32,
    pub old: u64,
    pub new: u64,
}

/// An entry of the history, with all that the attempt had when it became ready.
#[derive(Drop)]
pub struct HistoryEntry {
    pub entry: Entry,
    pub attempt: AttemptId,
    pub reads: LinkedList<Read>,
    pub writes: LinkedList<Write>,
    pub certificates: LinkedList<Certificate>,
    pub placed: LinkedList<PlacedNode>,
}
