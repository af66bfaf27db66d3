//! What a word of the shared field holds, and where each thing lies in it.
//!
//! A field is a row of 64-bit words. A `Shape` says how many lanes, nodes, descriptors, buckets and
//! queues it has, and at which word each of them lies. A `Content` is what a counted word holds, a
//! `StatusWord` what a descriptor's status word holds. No call of this crate takes memory.
#![tactic(auto)]

pub use content::{Content, Spot};
pub use laws::{lane_laws, layout_laws, word_laws};
pub use limits::{LANES, SET};
pub use shape::{Shape, ShapeFault};
pub use status::{Status, StatusWord};

mod address;
mod content;
mod lane;
mod laws;
pub mod limits;
mod shape;
mod status;
