//! What a pass knows.

use crate::attempt::{AttemptId, Hand, HistoryEntry};
use crate::node::PlacedNode;
use crate::step::Step;
use md_history::{Entry, Fate};
use std::collections::LinkedList;

/// What a pass holds, has seen and has done. A pass without lanes is spent. No value of it is made.
#[derive(Drop)]
pub struct PassView {
    /// In rising order.
    pub lanes: LinkedList<u32>,
    /// The history as far as it has seen it, and the fates that it knows.
    pub seen: LinkedList<HistoryEntry>,
    pub known: LinkedList<Fate>,
    /// Nodes that were placed in every resolution when it made a step.
    pub placed: LinkedList<PlacedNode>,
    /// The entries of its lanes that were answered as committed, in order.
    pub mine: LinkedList<Entry>,
    /// The attempts of its lanes that were in hand and were neither stopped nor answered.
    pub pending: LinkedList<AttemptId>,
    /// Its steps up to the last join, in segments, and those since then.
    pub past: LinkedList<LinkedList<Step>>,
    pub trail: LinkedList<Step>,
    pub hand: Option<Hand>,
}
