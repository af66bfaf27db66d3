//! The operations of a transaction of the store.
//!
//! Each call is one operation of md_list or md_queue, from its begin to its end. The first refusal
//! is kept, and after it no call does anything more.
#![tactic(auto)]

pub use broken::Broken;
pub use on_maps::{get_in, insert_in, put_in, remove_in};
pub use on_queues::{dequeue_in, enqueue_in, front_in, line_in};

mod broken;
mod on_maps;
mod on_queues;
