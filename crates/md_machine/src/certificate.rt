//! Certificates: why an operation has its reply, and what it changes.

use crate::node::Structure;
use md_history::{Op, Reply};
use std::collections::LinkedList;

/// A counted word and its value.
#[derive(Clone, Copy)]
pub struct WordValue {
    pub word: u32,
    pub value: u32,
}

/// A counted word whose value is changed.
#[derive(Clone, Copy)]
pub struct Change {
    pub word: u32,
    pub old: u32,
    pub new: u32,
}

/// A node that is placed with these words.
#[derive(Clone, Copy)]
pub struct NewNode {
    pub node: u32,
    pub structure: Structure,
    pub key: u64,
    pub value: u64,
    pub next: u32,
}

/// What is known of a placed node: where it belongs and, if given, its key, its value, and the
/// value of its next word, which is settled.
#[derive(Clone, Copy)]
pub struct Fact {
    pub node: u32,
    pub structure: Structure,
    pub key: Option<u64>,
    pub value: Option<u64>,
    pub next: Option<u32>,
}

/// A change that leaves the state as it is, the nodes that it places, and the facts that it rests
/// on.
#[derive(Drop)]
pub struct TidyChange {
    pub change: Change,
    pub nodes: LinkedList<NewNode>,
    pub facts: LinkedList<Fact>,
}

/// Why an operation has its reply: tidy changes that come first, the words that it read, the words
/// that it changes, the nodes that it places, and facts on placed nodes.
#[derive(Drop)]
pub struct Certificate {
    pub op: Op,
    pub reply: Reply,
    pub tidy: LinkedList<TidyChange>,
    pub recorded: LinkedList<WordValue>,
    pub changes: LinkedList<Change>,
    pub nodes: LinkedList<NewNode>,
    pub facts: LinkedList<Fact>,
}
