//! One step of a pass.

use crate::attempt::AttemptId;

/// The kinds of step. The moves split, join and mark are loads of word 0.
#[derive(Clone, Copy)]
pub enum Kind {
    Load,
    Store,
    Install,
    Exchange,
    Ready,
    Commit,
    Abort,
    Uninstall,
    Start,
}

/// A step of a pass on a word.
#[derive(Clone, Copy)]
pub struct Step {
    pub kind: Kind,
    pub word: u32,
    pub before: u64,
    pub after: u64,
    /// The attempt that the pass had in hand.
    pub attempt: Option<AttemptId>,
    /// Where the word is a node's key, value or next word: that node was placed in every
    /// resolution.
    pub placed: bool,
}

/// The highest count from which a word is changed by an install or a plain exchange.
pub const LAST_COUNT: u32 = 4_294_967_290;

/// Values of counted words are below it, and so are the new values of slots.
pub const VALUES: u64 = 4_294_967_296;
