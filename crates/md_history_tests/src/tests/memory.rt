//! Streams in memory.

use crate::tests::logs::{reads, writes};
use crate::tests::same;
use md_outside::{MemSink, MemSource};
use std::alloc::AllocGlobal;
use std::process::Abort;

// A copy of a slice.
fn copied<T: Copy + Drop>(rt: &(impl Abort + AllocGlobal), items: &[T]) -> Vec<T> {
    Vec::from_slice(rt.alloc(), items).expect(rt, "memory")
}

// Four reads of `hello` in pieces give this log, if these calls fail.
fn gives<R: Abort + AllocGlobal>(rt: &R, piece: usize, failing: &[u32], want: &[u8]) {
    assert!(rt; piece >= 1);
    let mut source = MemSource::new(copied(rt, b"hello"), piece, copied(rt, failing));
    reads(rt, &mut source, 4, want);
}

#[test]
fn a_source_in_memory_gives_pieces_and_fails_where_told(rt: HostRuntime) {
    gives(&rt, 9, &[], b"hel|lo|..");
    gives(&rt, 2, &[], b"he|ll|o|.");
    gives(&rt, 2, &[2], b"he|!ll|o|");
    gives(&rt, 1, &[1, 3, 9], b"!h|!e|");
}

#[test]
fn a_sink_in_memory_has_room_and_fails_where_told(rt: HostRuntime) {
    let opened = MemSink::new(rt.alloc(), 4, copied(&rt, &[1]));
    let mut sink = opened.expect(&rt, "memory");
    writes(&rt, &mut sink, "!4|!");
    same(&rt, &sink.bytes(), &b"hell".as_slice());
}
