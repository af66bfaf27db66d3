//! The program from its arguments to its exit status, and streams of std that fail once or end
//! early.

use crate::tests::{
    AMPLE, ORDER, REPORT, Streams, USAGE, compare, failing, same, sink_of, source_of, status_of,
};
use md_outside::{MemSink, MemSource, Sink, Source, StdSink, StdSource};
use md_program::{Status, exit_of_program, exit_over, run_program};
use std::alloc::{AllocError, AllocGlobal, Global};
use std::env;
use std::env::Args;
use std::io::{self, ErrorKind, Read, Write};
use std::process::{Abort, ExitCode};
use std::test::Fail;
use std::thread::Threads;

// Arguments as the system gives them.
fn args_of(alloc: Global, texts: &[&str]) -> Result<Args, AllocError> {
    let mut args = Vec::new(alloc);
    for text in texts {
        args.push(String::from_str(alloc, text)?)?;
    }
    Ok(args.into_iter())
}

// Runs with arguments, and says nothing of it in a clause.
fn program_status<R: AllocGlobal + Threads + Sync, I: Source, O: Sink>(
    rt: &R,
    args: io::Result<Args>,
    input: &mut I,
    output: &mut O,
) -> Status {
    run_program(rt, rt.alloc(), args, input, output).status
}

// Compares how a read of what is left ends.
fn expect_left(rt: &impl Abort, source: &mut MemSource, left: usize) {
    let mut unread = [0; 32];
    same(rt, &(source.read(&mut unread) == Ok(left)), &true);
}

// Runs with arguments, and compares the status, what was written, and how much of the input is
// left.
fn expect<R: Abort + AllocGlobal + Threads + Sync>(
    rt: &R,
    args: io::Result<Args>,
    status: Status,
    text: &[u8],
    left: usize,
) {
    let bytes = Vec::from_slice(rt.alloc(), ORDER).expect(rt, "memory");
    let mut source = source_of(rt, bytes, AMPLE);
    let mut sink = sink_of(rt, AMPLE);
    let found = program_status(rt, args, &mut source, &mut sink);
    compare(rt, (found, sink.bytes()), (status, text), &[], ORDER);
    expect_left(rt, &mut source, left);
}

// The same, with arguments that are there. The input is left as it was, or nothing of it.
fn expect_of<R: Abort + AllocGlobal + Threads + Sync>(
    rt: &R,
    texts: &[&str],
    status: Status,
    text: &[u8],
    is_left: bool,
) {
    let args = args_of(rt.alloc(), texts).expect(rt, "memory");
    let left = if is_left { ORDER.len() } else { 0 };
    expect(rt, Ok(args), status, text, left);
}

// Arguments, the status and the text, and whether the input is left.
const ARGUMENTS: &[(&[&str], Status, &[u8], bool)] = &[
    (&[], Status::Done, REPORT, false),
    (&["medley"], Status::Done, REPORT, false),
    (&["--callers"], Status::Done, REPORT, false),
    (&["medley", ""], Status::Usage, USAGE, true),
    (&["medley", "medley"], Status::Usage, USAGE, true),
    (&["medley", "--callers", "2"], Status::Done, REPORT, false),
    (&["medley", "--callers", "65"], Status::Usage, USAGE, true),
    (
        &["medley", "--make=1", "--lines=3"],
        Status::Done,
        b"made 3 placed 165 cancelled 0 filled 0 open 165\n",
        true,
    ),
];

#[test]
fn arguments_are_words_after_the_first(rt: HostRuntime) {
    for (texts, status, text, is_left) in ARGUMENTS {
        expect_of(&rt, texts, *status, text, *is_left);
    }
}

// So many times the same argument.
fn repeated_args(alloc: Global, text: &str, times: u32) -> Result<Args, AllocError> {
    let mut args = Vec::new(alloc);
    for _ in 0..times {
        args.push(String::from_str(alloc, text)?)?;
    }
    Ok(args.into_iter())
}

// More words after the name than two bytes can count.
#[test]
fn many_words(rt: HostRuntime) {
    let args = repeated_args(rt.alloc(), "medley", 65_538).expect(&rt, "memory");
    expect(&rt, Ok(args), Status::Usage, USAGE, ORDER.len());
}

// Runs with no arguments for a reason, and compares the status and what was written. The input is
// left.
fn expect_err<R: Abort + AllocGlobal + Threads + Sync>(
    rt: &R,
    kind: ErrorKind,
    status: Status,
    text: &[u8],
) {
    expect(rt, Err(kind.into()), status, text, ORDER.len());
}

#[test]
fn arguments_that_are_not_there(rt: HostRuntime) {
    let memory = b"fault memory\n";
    expect_err(&rt, ErrorKind::InvalidData, Status::Usage, USAGE);
    expect_err(&rt, ErrorKind::Other, Status::Usage, USAGE);
    expect_err(&rt, ErrorKind::OutOfMemory, Status::NoMemory, memory);
}

// Compares an exit.
fn expect_number(rt: &impl Abort, code: ExitCode, number: u8) {
    same(rt, &code, &ExitCode::from(number));
}

// Each status, and the number of its exit.
const EXITS: &[(Status, u8)] = &[
    (Status::Done, 0),
    (Status::Usage, 2),
    (Status::BadLine(1), 3),
    (Status::BadLine(256), 3),
    (Status::ReadFault, 4),
    (Status::WriteFault, 5),
    (Status::NoMemory, 6),
    (Status::TooLong, 7),
    (Status::TooMany, 8),
];

#[test]
fn each_status_has_its_exit(rt: HostRuntime) {
    for (status, number) in EXITS {
        expect_number(&rt, ExitCode::from(*status), *number);
    }
}

// Runs, and says nothing of it in a clause: the exit.
fn exit_of<R: AllocGlobal + Threads + Sync, I: Source, O: Sink>(
    rt: &R,
    args: io::Result<Args>,
    input: &mut I,
    output: &mut O,
) -> ExitCode {
    exit_of_program(rt, rt.alloc(), args, input, output)
}

// Runs with one argument and these streams, and compares the exit.
fn expect_exit<R: Abort + AllocGlobal + Threads + Sync>(
    rt: &R,
    input: &[u8],
    streams: Streams,
    exit: u8,
) {
    let args = args_of(rt.alloc(), &["medley"]).expect(rt, "memory");
    let bytes = Vec::from_slice(rt.alloc(), input).expect(rt, "memory");
    let mut source = source_of(rt, bytes, streams);
    let mut sink = sink_of(rt, streams);
    let code = exit_of(rt, Ok(args), &mut source, &mut sink);
    expect_number(rt, code, exit);
}

#[test]
fn the_exit_is_that_of_the_run(rt: HostRuntime) {
    expect_exit(&rt, ORDER, failing(&[], 1024, &[]), 0);
    expect_exit(&rt, b"1,A,0\n", failing(&[], 1024, &[]), 3);
    expect_exit(&rt, ORDER, failing(&[1], 1024, &[]), 4);
    expect_exit(&rt, ORDER, failing(&[], 5, &[]), 5);
}

// Runs over a reader and a writer, and says nothing of it in a clause: the exit.
fn exit_over_streams<R: AllocGlobal + Threads + Sync, I: Read + Drop, O: Write + Drop>(
    rt: &R,
    args: io::Result<Args>,
    reader: I,
    writer: O,
) -> ExitCode {
    exit_over(rt, rt.alloc(), args, reader, writer)
}

// The one word of a test's process is the test's name. So this drives the program on its real
// words, which it doesn't accept, and on its real output.
#[test]
fn the_program_is_given_its_words(rt: HostRuntime) -> Result<(), Fail> {
    same(&rt, &env::args(&rt)?.len(), &2);
    let code = exit_over_streams(&rt, env::args(&rt), ORDER, rt.stdout());
    expect_number(&rt, code, 2);
    Ok(())
}

// A writer that takes four bytes at a call and fails at one call, before it takes any.
#[derive(Drop)]
struct FailsOnce {
    taken: Vec<u8>,
    calls: usize,
    failing: usize,
}

impl Write for FailsOnce {
    fn write(&mut self, buf: &[u8]) -> io::Result<usize> {
        self.calls = self.calls.saturating_add(1);
        if self.calls == self.failing {
            return Err(ErrorKind::Interrupted.into());
        }
        let count = buf.len().min(4);
        self.taken.extend_from_slice(&buf[..count])?;
        Ok(count)
    }

    fn flush(&mut self) -> io::Result<()> {
        Ok(())
    }
}

// Runs with a writer that fails at this call: the status, and what the writer was given.
fn written_once<R: AllocGlobal + Threads + Sync>(rt: &R, failing: usize) -> (Status, FailsOnce) {
    let mut writer = FailsOnce {
        taken: Vec::new(rt.alloc()),
        calls: 0,
        failing,
    };
    let mut source = StdSource::new(ORDER);
    let mut sink = StdSink::new(&mut writer);
    let status = status_of(rt, &[], &mut source, &mut sink);
    (status, writer)
}

// What a run comes to: its status, how many calls of a stream there were, and what was written.
type CameByCalls<'a> = (Status, usize, &'a [u8]);

// Compares what a run came to.
fn compare_calls(rt: &impl Abort, found: CameByCalls<'_>, wanted: CameByCalls<'_>) {
    same(rt, &found, &wanted);
}

// Runs with a writer that fails at this call, which is its last, after so many bytes.
fn expect_written<R: Abort + AllocGlobal + Threads + Sync>(rt: &R, failing: usize, bytes: usize) {
    let (status, writer) = written_once(rt, failing);
    let text = &REPORT[..bytes.min(REPORT.len())];
    let found = (status, writer.calls, writer.taken.as_slice());
    compare_calls(rt, found, (Status::WriteFault, failing, text));
}

// No write follows one that failed, not even the same again.
#[test]
fn a_write_that_failed_is_the_last(rt: HostRuntime) {
    // The report is written in two parts, its line and what follows.
    let line = b"1:1 placed\n".len();
    let first = line.div_ceil(4);
    let whole = first.saturating_add(REPORT.len().saturating_sub(line).div_ceil(4));
    for failing in 1..=whole {
        let before = failing.saturating_sub(1);
        let rest = before.saturating_sub(first).saturating_mul(4);
        let bytes = before.saturating_mul(4).min(line).saturating_add(rest);
        expect_written(&rt, failing, bytes);
    }
}

// A reader that gives an order, then says that it is at its end, and then gives another order.
#[derive(Drop)]
struct GoesOn {
    calls: usize,
}

impl Read for GoesOn {
    fn read(&mut self, buf: &mut [u8]) -> io::Result<usize> {
        self.calls = self.calls.saturating_add(1);
        if self.calls == 2 || buf.len() < ORDER.len() {
            return Ok(0);
        }
        buf[..ORDER.len()].copy_from_slice(ORDER);
        Ok(ORDER.len())
    }
}

// Runs with a reader that goes on.
fn read_past_the_end<R: AllocGlobal + Threads + Sync>(
    rt: &R,
    reader: &mut GoesOn,
    sink: &mut MemSink,
) -> Status {
    let mut source = StdSource::new(&mut *reader);
    status_of(rt, &[], &mut source, sink)
}

// No read follows the one that told the end.
#[test]
fn the_end_is_the_last_read(rt: HostRuntime) {
    let mut reader = GoesOn { calls: 0 };
    let mut sink = sink_of(&rt, AMPLE);
    let status = read_past_the_end(&rt, &mut reader, &mut sink);
    let found = (status, reader.calls, sink.bytes());
    compare_calls(&rt, found, (Status::Done, 2, REPORT));
}
