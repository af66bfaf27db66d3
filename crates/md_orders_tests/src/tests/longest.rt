//! The longest report.

use crate::tests::reports::reported;
use crate::tests::shown::{are_bytes, extend, read};
use md_book::{BOUGHT, DEPTHS, LEVELS, MAX_ACCOUNT, MAX_PRICE, SOLD};
use std::alloc::{AllocGlobal, Global};
use std::process::Abort;
use std::test::Fail;

// As many lines as a file of version 2 can have.
const LINES: u32 = 999_999;

// A file of version 2 with so many fills of the last caller.
fn fills<R: Abort + AllocGlobal>(rt: &R) -> Vec<u8> {
    let mut text = Vec::new(rt.alloc());
    extend(rt, &mut text, b"medley,2\n");
    for _ in 0..LINES {
        extend(rt, &mut text, b"64,F,9999,S,1000,1000000\n");
    }
    text
}

// Adds the greatest value of a key of a map.
fn add_greatest(rt: &impl Abort, values: &mut Vec<(u32, u64, u64)>, map: u32, key: u64) {
    values.push((map, key, u64::MAX)).expect(rt, "memory");
}

// Adds the greatest depth at each level.
fn add_depths(rt: &impl Abort, values: &mut Vec<(u32, u64, u64)>) {
    for level in 0..LEVELS {
        add_greatest(rt, values, DEPTHS, u64::from(level));
    }
}

// Adds the greatest sums of each account.
fn add_sums(rt: &impl Abort, values: &mut Vec<(u32, u64, u64)>) {
    for before in 0..MAX_ACCOUNT {
        let account = u64::from(before) + 1;
        add_greatest(rt, values, BOUGHT, account);
        add_greatest(rt, values, SOLD, account);
    }
}

// The greatest depth at each level, and the greatest sums of each account.
fn greatest_values<R: Abort + AllocGlobal>(rt: &R) -> Vec<(u32, u64, u64)> {
    let mut values = Vec::new(rt.alloc());
    add_depths(rt, &mut values);
    add_sums(rt, &mut values);
    values
}

// What is left of a text after a piece that it has to begin with.
fn after<'a>(text: &'a [u8], piece: &str) -> Result<&'a [u8], Fail> {
    let piece = piece.as_bytes();
    if text.len() < piece.len() || &text[..piece.len()] != piece {
        return Err(Fail::new("another text"));
    }
    Ok(&text[piece.len()..])
}

// What is left of a text after a line with a number between two pieces. The line is made anew.
fn after_line<'a>(
    line: &mut String,
    text: &'a [u8],
    before: &str,
    number: u32,
    behind: &str,
) -> Result<&'a [u8], Fail> {
    line.clear();
    writeln!(line, "{before}{number}{behind}")?;
    after(text, line.as_str())
}

// What is left of a text after lines that are numbered from 1 on, each number between two pieces.
fn after_numbered<'a>(
    alloc: Global,
    text: &'a [u8],
    count: u32,
    before: &str,
    behind: &str,
) -> Result<&'a [u8], Fail> {
    let mut left = text;
    let mut line = String::new(alloc);
    for earlier in 0..count {
        left = after_line(&mut line, left, before, earlier + 1, behind)?;
    }
    Ok(left)
}

// The report of so many fills, with the longest texts.
fn longest<R: Abort + AllocGlobal>(rt: &R) -> Vec<u8> {
    let scripts = read(rt, &fills(rt), 64);
    reported(rt, &scripts, 12, &greatest_values(rt))
}

// What is left of that report after the lines of the fills and of the book.
fn after_lines<'a>(alloc: Global, text: &'a [u8]) -> Result<&'a [u8], Fail> {
    let parts = " filled 900000 rest 100000 from \
        64:1000000=100000 64:1000000=100000 64:1000000=100000 64:1000000=100000 \
        64:1000000=100000 64:1000000=100000 64:1000000=100000 64:1000000=100000 \
        64:1000000=25000 64:1000000=25000 64:1000000=25000 64:1000000=25000";
    let depth = " 18446744073709551615";
    let sums = " bought 18446744073709551615 sold 18446744073709551615";
    let left = after_numbered(alloc, text, LINES, "64:", parts)?;
    let left = after_numbered(alloc, left, MAX_PRICE, "B ", depth)?;
    let left = after_numbered(alloc, left, MAX_PRICE, "S ", depth)?;
    after_numbered(alloc, left, MAX_ACCOUNT, "account ", sums)
}

// As many lines as there can be, each with as long a text as a reply can have, and the book's lines
// likewise: some 254 million bytes.
#[test]
fn the_longest_report(rt: HostRuntime) -> Result<(), Fail> {
    let text = longest(&rt);
    let left = after_lines(rt.alloc(), &text)?;
    are_bytes(&rt, left, b"done 999999\n");
    Ok(())
}
