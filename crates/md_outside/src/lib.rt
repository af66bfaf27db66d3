//! The edge to the outside world: sources and sinks of bytes, each with a count of its faults.
#![tactic(auto)]

mod listed;
mod mem_sink;
mod mem_source;
mod outside;
mod passage;
mod std_sink;
mod std_source;

pub use mem_sink::MemSink;
pub use mem_source::MemSource;
pub use outside::{Failed, Sink, Source};
pub use std_sink::StdSink;
pub use std_source::StdSource;
