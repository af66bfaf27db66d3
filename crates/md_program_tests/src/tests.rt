//! What no clause says: that runs come to their end, and what is printed of whole inputs.

mod asked;
mod bad;
mod edge;
mod making;
mod meetings;
mod played;
mod rows;
mod witnesses;
mod words;

use md_outside::{MemSink, MemSource, Sink, Source};
use md_program::{Status, run};
use md_rounds::FreeGate;
use std::alloc::{AllocError, AllocGlobal, Global};
use std::fmt::Debug;
use std::process::Abort;
use std::thread::Threads;

// What was found is what was wanted. (A call is proved sooner than an `assert_eq!`.)
fn same<T: PartialEq + Debug>(rt: &impl Abort, found: &T, wanted: &T) {
    assert_eq!(rt; *found, *wanted);
}

// How the streams of a run behave.
#[derive(Clone, Copy)]
struct Streams<'a> {
    piece: usize,
    failing_reads: &'a [u32],
    room: usize,
    failing_writes: &'a [u32],
}

// Streams that fail at no call and have room for each text here.
const AMPLE: Streams<'static> = Streams {
    piece: 8192,
    failing_reads: &[],
    room: 1024,
    failing_writes: &[],
};

// Runs, and says nothing of it in a clause. So what follows is proved without the run's contract.
fn status_of<R: AllocGlobal + Threads + Sync, I: Source, O: Sink>(
    rt: &R,
    words: &[&str],
    input: &mut I,
    output: &mut O,
) -> Status {
    run(rt, rt.alloc(), words, input, output, &FreeGate).status
}

// A source in memory of these bytes.
fn source_of<R: Abort + AllocGlobal>(rt: &R, bytes: Vec<u8>, streams: Streams) -> MemSource {
    assert!(rt; streams.piece >= 1);
    let failing = Vec::from_slice(rt.alloc(), streams.failing_reads).expect(rt, "memory");
    MemSource::new(bytes, streams.piece, failing)
}

// An empty sink in memory.
fn sink_of<R: Abort + AllocGlobal>(rt: &R, streams: Streams) -> MemSink {
    let failing = Vec::from_slice(rt.alloc(), streams.failing_writes).expect(rt, "memory");
    MemSink::new(rt.alloc(), streams.room, failing).expect(rt, "memory")
}

// Runs over streams in memory: the status, and the sink with what was written.
fn outcome<R: Abort + AllocGlobal + Threads + Sync>(
    rt: &R,
    words: &[&str],
    input: Vec<u8>,
    streams: Streams,
) -> (Status, MemSink) {
    let mut source = source_of(rt, input, streams);
    let mut sink = sink_of(rt, streams);
    let status = status_of(rt, words, &mut source, &mut sink);
    (status, sink)
}

// What a run comes to: its status, and what was written.
type Came<'a> = (Status, &'a [u8]);

// Compares what a run came to with what its input should come to.
fn compare(rt: &impl Abort, found: Came<'_>, wanted: Came<'_>, words: &[&str], input: &[u8]) {
    same(rt, &(found, words, input), &(wanted, words, input));
}

// Runs with words over streams in memory, and compares the status and what was written.
fn expect_with<R: Abort + AllocGlobal + Threads + Sync>(
    rt: &R,
    words: &[&str],
    input: &[u8],
    streams: Streams,
    status: Status,
    text: &[u8],
) {
    let bytes = Vec::from_slice(rt.alloc(), input).expect(rt, "memory");
    let (found, sink) = outcome(rt, words, bytes, streams);
    compare(rt, (found, sink.bytes()), (status, text), words, input);
}

// The same without words.
fn expect<R: Abort + AllocGlobal + Threads + Sync>(
    rt: &R,
    input: &[u8],
    streams: Streams,
    status: Status,
    text: &[u8],
) {
    expect_with(rt, &[], input, streams, status, text);
}

// One order, its report, and the line of a failed read.
const ORDER: &[u8] = b"1,P,7,S,100,5\n";

const REPORT: &[u8] = b"1:1 placed\nS 100 5\ndone 1\n";

const READ_FAULT: &[u8] = b"fault read\n";

const USAGE: &[u8] =
    b"usage: medley [--callers N] [--nodes K] [--tries K] [--make NUMBER --lines N]\n";

#[test]
fn failing_reads(rt: HostRuntime) {
    // In pieces of 4 bytes there are four reads that give some, and a fifth that gives none.
    for failing in 1..=6 {
        if failing <= 5 {
            expect_of_read(&rt, failing, Status::ReadFault, READ_FAULT);
        } else {
            expect_of_read(&rt, failing, Status::Done, REPORT);
        }
    }
}

// Runs over an order in pieces of 4 bytes, of which one read fails.
fn expect_of_read<R: Abort + AllocGlobal + Threads + Sync>(
    rt: &R,
    failing: u32,
    status: Status,
    text: &[u8],
) {
    let streams = Streams {
        piece: 4,
        failing_reads: &[failing],
        ..AMPLE
    };
    expect(rt, ORDER, streams, status, text);
}

// Streams with so much room, of which these reads and writes fail.
fn failing<'a>(reads: &'a [u32], room: usize, writes: &'a [u32]) -> Streams<'a> {
    Streams {
        piece: 8192,
        failing_reads: reads,
        room,
        failing_writes: writes,
    }
}

// A report for which there is too little room, at each length.
fn little_room<R: Abort + AllocGlobal + Threads + Sync>(rt: &R) {
    for room in 0..REPORT.len() {
        let streams = failing(&[], room, &[]);
        expect(rt, ORDER, streams, Status::WriteFault, &REPORT[..room]);
    }
}

#[test]
fn failing_writes(rt: HostRuntime) {
    little_room(&rt);
    let exact = Streams {
        piece: 1,
        ..failing(&[], REPORT.len(), &[])
    };
    expect(&rt, ORDER, exact, Status::Done, REPORT);
    let first = failing(&[], 1024, &[1]);
    expect(&rt, ORDER, first, Status::WriteFault, b"");
    let both = failing(&[1], 5, &[]);
    expect(&rt, ORDER, both, Status::ReadFault, b"fault");
}

// So many times the same bytes, and then others.
fn repeated(alloc: Global, part: &[u8], times: u32, end: &[u8]) -> Result<Vec<u8>, AllocError> {
    let mut bytes = Vec::new(alloc);
    for _ in 0..times {
        bytes.extend_from_slice(part)?;
    }
    bytes.extend_from_slice(end)?;
    Ok(bytes)
}

const DEPTH: &[u8] = b"1,D,S,1\n";

const BAD: &[u8] = b"bad\n";

const TOO_LONG: &[u8] = b"fault too long\n";

const TOO_MANY: &[u8] = b"fault too many records\n";

// Runs over so many times the same bytes, and then others.
fn expect_of_many<R: Abort + AllocGlobal + Threads + Sync>(
    rt: &R,
    part: &[u8],
    times: u32,
    end: &[u8],
    status: Status,
    text: &[u8],
) {
    let streams = Streams {
        piece: 1_000_000,
        ..AMPLE
    };
    let bytes = repeated(rt.alloc(), part, times, end).expect(rt, "memory");
    let (found, sink) = outcome(rt, &[], bytes, streams);
    compare(rt, (found, sink.bytes()), (status, text), &[], part);
}

// Runs over as many line ends as an input may have, and over one more.
fn blank_lines<R: Abort + AllocGlobal + Threads + Sync>(rt: &R) {
    let blank = repeated(rt.alloc(), b"\n", 8192, b"").expect(rt, "memory");
    expect_of_many(rt, &blank, 8192, b"", Status::Done, b"done 0\n");
    expect_of_many(rt, &blank, 8192, b"\n", Status::TooLong, TOO_LONG);
}

#[test]
fn the_largest_inputs(rt: HostRuntime) {
    let last = Status::BadLine(1_000_000);
    blank_lines(&rt);
    expect_of_many(&rt, DEPTH, 999_999, BAD, last, b"fault line 1000000\n");
    expect_of_many(&rt, DEPTH, 1_000_001, b"", Status::TooMany, TOO_MANY);
    expect_of_many(&rt, DEPTH, 1_000_000, BAD, Status::TooMany, TOO_MANY);
    expect_of_many(&rt, BAD, 1_000_001, b"", Status::TooMany, TOO_MANY);
    expect_of_many(&rt, DEPTH, 8_388_608, BAD, Status::TooLong, TOO_LONG);
}

// Compares a status with that of a whole run, and what was written with a long report.
fn compare_report(rt: &impl Abort, found: Came<'_>, report: &[u8]) {
    assert!(rt; found == (Status::Done, report));
}

// Replays so many times the same lines, which have a long report.
fn replays<R: Abort + AllocGlobal + Threads + Sync>(
    rt: &R,
    lines: &[u8],
    times: u32,
    report: &[u8],
) {
    let streams = Streams {
        piece: 65_536,
        room: report.len(),
        ..AMPLE
    };
    let orders = repeated(rt.alloc(), lines, times, b"").expect(rt, "memory");
    let (status, sink) = outcome(rt, &[], orders, streams);
    compare_report(rt, (status, sink.bytes()), report);
}

// Writes the replies to an order and the fill that empties it.
fn write_pair(report: &mut String, pair: u32) -> Result<(), AllocError> {
    let line = pair.saturating_mul(2).saturating_add(1);
    let next = line.saturating_add(1);
    writeln!(
        report,
        "1:{line} placed\n1:{next} filled 1 rest 0 from 1:{line}=1"
    )
}

// Writes the replies to so many orders, each with a fill that empties it.
fn write_pairs(report: &mut String, pairs: u32) -> Result<(), AllocError> {
    for pair in 0..pairs {
        write_pair(report, pair)?;
    }
    Ok(())
}

// Half a million orders, each with a fill that empties it: as many lines as an input may have.
#[test]
fn a_million_lines(rt: HostRuntime) {
    let mut report = String::new(rt.alloc());
    write_pairs(&mut report, 500_000).expect(&rt, "memory");
    let accounts = "account 7 bought 0 sold 500000\naccount 8 bought 500000 sold 0\n";
    report.push_str(accounts).expect(&rt, "memory");
    report.push_str("done 1000000\n").expect(&rt, "memory");
    let lines = b"1,P,7,S,100,1\n1,F,8,S,100,1\n";
    replays(&rt, lines, 500_000, report.as_bytes());
}

// Writes the replies to so many orders.
fn write_placed(report: &mut String, lines: u32) -> Result<(), AllocError> {
    for line in 1..=lines {
        writeln!(report, "1:{line} placed")?;
    }
    Ok(())
}

// As many open orders as there can be, all at one level: a map has a million keys, and a queue a
// million values.
#[test]
fn a_million_open_orders(rt: HostRuntime) {
    let mut report = String::new(rt.alloc());
    write_placed(&mut report, 1_000_000).expect(&rt, "memory");
    let end = "S 100 1000000\ndone 1000000\n";
    report.push_str(end).expect(&rt, "memory");
    replays(&rt, b"1,P,7,S,100,1\n", 1_000_000, report.as_bytes());
}
