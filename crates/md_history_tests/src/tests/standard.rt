//! Streams over readers and writers of std.

use crate::tests::logs::{reads, writes};
use crate::tests::same;
use md_outside::{StdSink, StdSource};
use std::alloc::AllocGlobal;
use std::io::{self, ErrorKind, Read, Write};
use std::process::Abort;

#[test]
fn readers_of_std_pass_all_bytes(rt: HostRuntime) {
    let mut source = StdSource::new(b"hello".as_slice());
    reads(&rt, &mut source, 4, b"hel|lo|..");
}

#[test]
fn writers_of_std_pass_all_bytes(rt: HostRuntime) {
    let mut written = Vec::new(rt.alloc());
    writes(&rt, &mut StdSink::new(&mut written), "5|");
    same(&rt, &written.as_slice(), &b"hello".as_slice());
}

// A reader that gives one letter at a call, in order, but for one call, which is interrupted.
#[derive(Drop)]
struct Letters {
    next: u8,
    calls: u8,
    failing: u8,
}

impl Read for Letters {
    fn read(&mut self, buf: &mut [u8]) -> io::Result<usize> {
        self.calls = self.calls.saturating_add(1);
        if self.calls == self.failing {
            return Err(ErrorKind::Interrupted.into());
        }
        if buf.is_empty() {
            return Ok(0);
        }
        buf[0] = self.next;
        self.next = self.next.saturating_add(1);
        Ok(1)
    }
}

#[test]
fn a_reader_that_fails_once_goes_on(rt: HostRuntime) {
    let mut source = StdSource::new(Letters {
        next: b'a',
        calls: 0,
        failing: 3,
    });
    reads(&rt, &mut source, 5, b"a|b|!c|d|");
}

// A writer that takes at most so many bytes at a call, and counts them and its flushes, one of
// which fails.
#[derive(Drop)]
struct Counter {
    most: usize,
    taken: usize,
    flushes: u8,
    failing: u8,
}

impl Write for Counter {
    fn write(&mut self, buf: &[u8]) -> io::Result<usize> {
        let count = buf.len().min(self.most);
        self.taken = self.taken.saturating_add(count);
        Ok(count)
    }

    fn flush(&mut self) -> io::Result<()> {
        self.flushes = self.flushes.saturating_add(1);
        if self.flushes == self.failing {
            return Err(ErrorKind::Other.into());
        }
        Ok(())
    }
}

// Three writes of `hello` give this log, if the writer takes at most so many bytes at a call and
// the second flush fails. It takes so many bytes then, and is flushed three times.
fn flushes<R: Abort + AllocGlobal>(rt: &R, most: usize, want: &str, taken: usize) {
    let mut writer = Counter {
        most,
        taken: 0,
        flushes: 0,
        failing: 2,
    };
    writes(rt, &mut StdSink::new(&mut writer), want);
    same(rt, &(writer.taken, writer.flushes), &(taken, 3));
}

#[test]
fn each_write_is_flushed(rt: HostRuntime) {
    flushes(&rt, 2, "2|!2|", 6);
    flushes(&rt, 0, "!!!", 0);
}
