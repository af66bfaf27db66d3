//! Packed replies, as a report tells them.

use crate::tests::in_threads::told;
use crate::tests::shown::same;
use md_book::{BookReply, MAX_PARTS, Part};
use md_report_replies::PackedReplies;
use std::alloc::AllocGlobal;
use std::process::Abort;

const NONE: Part = Part { name: 0, taken: 0 };

const MOST: Part = Part {
    name: u64::MAX,
    taken: u32::MAX,
};

const UNNAMED: Part = Part { name: 0, taken: 7 };

const EMPTY: Part = Part { name: 7, taken: 0 };

// Parts that are zero but for the first three and the last.
fn parts(first: Part, second: Part, third: Part, last: Part) -> [Part; MAX_PARTS] {
    [
        first, second, third, NONE, NONE, NONE, NONE, NONE, NONE, NONE, NONE, last,
    ]
}

// Adds a fill and a reply of another kind. Behind them nothing is added, which changes nothing.
fn add_pair(
    rt: &impl Abort,
    packed: &mut PackedReplies,
    count: u8,
    parts: &[Part; MAX_PARTS],
    other: &BookReply,
) {
    let fill = BookReply::Filled {
        taken: u32::MAX - 1,
        rest: u32::MAX,
        count,
        parts: *parts,
    };
    packed.append(&[fill, *other]).expect(rt, "memory");
    packed.append(&[]).expect(rt, "memory");
}

// Fills with these counts and parts, and a reply of another kind behind each.
fn packed_pairs<R: Abort + AllocGlobal>(
    rt: &R,
    pairs: &[(u8, [Part; MAX_PARTS], BookReply)],
) -> PackedReplies {
    let mut packed = PackedReplies::new(rt.alloc());
    for (count, parts, other) in pairs {
        add_pair(rt, &mut packed, *count, parts, other);
    }
    packed
}

// Two replies for each fill: the fill, and one of another kind. The fills have no part, parts that
// the count leaves out, and twelve parts.
fn all_packed<R: Abort + AllocGlobal>(rt: &R) -> PackedReplies {
    let none = [NONE; MAX_PARTS];
    let gap = parts(MOST, NONE, UNNAMED, NONE);
    let two = parts(EMPTY, MOST, NONE, NONE);
    let last = parts(NONE, NONE, NONE, EMPTY);
    let bought = BookReply::Account {
        bought: u64::MAX,
        sold: 1,
    };
    let sold = BookReply::Account {
        bought: 0,
        sold: u64::MAX,
    };
    let pairs = [
        (0, none, BookReply::Placed),
        (255, none, BookReply::Cancelled(u32::MAX)),
        (1, gap, BookReply::Gone),
        (0, two, bought),
        (3, last, BookReply::Killed),
        (12, [MOST; MAX_PARTS], BookReply::Depth(u64::MAX)),
        (12, gap, BookReply::Cancelled(0)),
        (12, two, sold),
        (12, last, BookReply::Depth(0)),
    ];
    packed_pairs(rt, &pairs)
}

#[test]
fn each_reply_is_told_as_it_was(rt: HostRuntime) {
    let packed = all_packed(&rt);
    let lengths = (PackedReplies::new(rt.alloc()).is_empty(), packed.len());
    let orders = b"1,A,7\n1,A,7\n1,A,7\n1,A,7\n1,A,7\n1,A,7\n1,A,7\n1,A,7\n1,A,7\n\
        1,A,7\n1,A,7\n1,A,7\n1,A,7\n1,A,7\n1,A,7\n1,A,7\n1,A,7\n1,A,7\n"
        .as_slice();
    let text = told(&rt, orders, packed);
    let want = "\
        1:1 filled 4294967294 rest 4294967295 from\n\
        1:2 placed\n\
        1:3 filled 4294967294 rest 4294967295 from 0:0=0 0:0=0 0:0=0 0:0=0 0:0=0 0:0=0 \
        0:0=0 0:0=0 0:0=0 0:0=0 0:0=0 0:0=0\n\
        1:4 cancelled 4294967295\n\
        1:5 filled 4294967294 rest 4294967295 from 4294967295:4294967295=4294967295\n\
        1:6 gone\n\
        1:7 filled 4294967294 rest 4294967295 from\n\
        1:8 bought 18446744073709551615 sold 1\n\
        1:9 filled 4294967294 rest 4294967295 from 0:0=0 0:0=0 0:0=0\n\
        1:10 killed\n\
        1:11 filled 4294967294 rest 4294967295 from 4294967295:4294967295=4294967295 \
        4294967295:4294967295=4294967295 4294967295:4294967295=4294967295 \
        4294967295:4294967295=4294967295 4294967295:4294967295=4294967295 \
        4294967295:4294967295=4294967295 4294967295:4294967295=4294967295 \
        4294967295:4294967295=4294967295 4294967295:4294967295=4294967295 \
        4294967295:4294967295=4294967295 4294967295:4294967295=4294967295 \
        4294967295:4294967295=4294967295\n\
        1:12 depth 18446744073709551615\n\
        1:13 filled 4294967294 rest 4294967295 from 4294967295:4294967295=4294967295 \
        0:0=0 0:0=7 0:0=0 0:0=0 0:0=0 0:0=0 0:0=0 0:0=0 0:0=0 0:0=0 0:0=0\n\
        1:14 cancelled 0\n\
        1:15 filled 4294967294 rest 4294967295 from 0:7=0 \
        4294967295:4294967295=4294967295 0:0=0 0:0=0 0:0=0 0:0=0 0:0=0 0:0=0 0:0=0 \
        0:0=0 0:0=0 0:0=0\n\
        1:16 bought 0 sold 18446744073709551615\n\
        1:17 filled 4294967294 rest 4294967295 from 0:0=0 0:0=0 0:0=0 0:0=0 0:0=0 0:0=0 \
        0:0=0 0:0=0 0:0=0 0:0=0 0:0=0 0:7=0\n\
        1:18 depth 0\n";
    same(
        &rt,
        &(lengths, text.as_slice()),
        &((true, 18), want.as_bytes()),
    );
}
