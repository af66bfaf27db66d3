//! What reads and writes answer, one after another.

use crate::tests::same;
use md_outside::{Failed, Sink, Source};
use std::alloc::AllocGlobal;
use std::process::Abort;

// What so many reads into three bytes give: the bytes of each and a bar, `.` at the end, `!` at a
// fault.
fn read_log<R: Abort + AllocGlobal, S: Source>(rt: &R, source: &mut S, calls: u8) -> Vec<u8> {
    let mut log = Vec::new(rt.alloc());
    for _ in 0..calls {
        let mut buf = [0; 3];
        match source.read(&mut buf) {
            Ok(0) => log.extend_from_slice(b".").expect(rt, "memory"),
            Ok(count) => {
                log.extend_from_slice(&buf[..count]).expect(rt, "memory");
                log.extend_from_slice(b"|").expect(rt, "memory");
            }
            Err(Failed) => log.extend_from_slice(b"!").expect(rt, "memory"),
        }
    }
    log
}

// So many reads give this log.
pub(super) fn reads<R: Abort + AllocGlobal, S: Source>(
    rt: &R,
    source: &mut S,
    calls: u8,
    want: &[u8],
) {
    let log = read_log(rt, source, calls);
    same(rt, &log.as_slice(), &want);
}

// What so many writes answer: the number of bytes that each takes and a bar, `!` at a fault. A
// write goes on where the last one stopped.
fn write_log<R: Abort + AllocGlobal, S: Sink>(
    rt: &R,
    sink: &mut S,
    text: &[u8],
    calls: u8,
) -> String {
    let mut log = String::new(rt.alloc());
    let mut rest = text;
    for _ in 0..calls {
        if rest.is_empty() {
            return log;
        }
        match sink.write(rest) {
            Ok(count) => {
                rest = &rest[count..];
                write!(log, "{count}|").expect(rt, "memory");
            }
            Err(Failed) => log.push('!').expect(rt, "memory"),
        }
    }
    log
}

// Three writes of `hello` give this log.
pub(super) fn writes<R: Abort + AllocGlobal, S: Sink>(rt: &R, sink: &mut S, want: &str) {
    let log = write_log(rt, sink, b"hello", 3);
    same(rt, &log.as_str(), &want);
}
