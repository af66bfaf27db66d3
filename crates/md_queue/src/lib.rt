//! Operations of Michael and Scott's queue, as operations of a transaction, over any theory that
//! has queues. After M. M. Michael and M. L. Scott, "Simple, Fast, and Practical Non-Blocking and
//! Blocking Concurrent Queue Algorithms" (1996).
//!
//! The comments use these words. A **step** is one atomic step on a shared word. If a transaction
//! **records** a word, it commits only if the word still holds what was seen there. If it
//! **writes** a word, it changes the word when it commits, and the word is its **own** until then.
//! It records at most 128 words and writes at most 128. The first value of a queue is in the node
//! after the one that the head names.
#![tactic(auto)]

pub use first::{dequeue, front};
pub use last::enqueue;
pub use lines::line;

mod first;
mod last;
mod lines;
mod words;
