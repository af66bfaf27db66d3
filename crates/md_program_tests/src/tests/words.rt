//! Words, and the options that they write.

use crate::tests::same;
use md_program::{Making, Options, read_options};
use std::process::Abort;

const ONE_CALLER: Options = Options {
    callers: 1,
    nodes: None,
    tries: None,
    make: None,
};

const MOST_CALLERS: Options = Options {
    callers: 64,
    nodes: None,
    tries: None,
    make: None,
};

// One caller's 20,000 lines that are made from 7.
const SEVEN: Options = Options {
    callers: 1,
    nodes: None,
    tries: None,
    make: Some(Making {
        number: 7,
        lines: 20_000,
    }),
};

// Reads words that should write these options, or none.
fn expect(rt: &impl Abort, words: &[&str], want: Option<Options>) {
    same(rt, &(words, read_options(words)), &(words, want));
}

// Words, and the options that they write.
const OPTIONS: &[(&[&str], Options)] = &[
    (&[], ONE_CALLER),
    (&["--callers", "1"], ONE_CALLER),
    (&["--callers=1"], ONE_CALLER),
    (&["--callers", "64"], MOST_CALLERS),
    // Ten digits, with zeros in front.
    (&["--callers=0000000064"], MOST_CALLERS),
    (
        &["--nodes", "16", "--tries=1"],
        Options {
            callers: 1,
            nodes: Some(16),
            tries: Some(1),
            make: None,
        },
    ),
    (
        &["--tries", "16384", "--nodes=262144"],
        Options {
            callers: 1,
            nodes: Some(262_144),
            tries: Some(16_384),
            make: None,
        },
    ),
    (&["--make", "7", "--lines", "20000"], SEVEN),
    (&["--lines=20000", "--make=7"], SEVEN),
    (
        &["--make=0", "--lines", "1"],
        Options {
            callers: 1,
            nodes: None,
            tries: None,
            make: Some(Making {
                number: 0,
                lines: 1,
            }),
        },
    ),
    (
        &["--make", "2147483647", "--callers=8", "--lines=1000000"],
        Options {
            callers: 8,
            nodes: None,
            tries: None,
            make: Some(Making {
                number: 2_147_483_647,
                lines: 1_000_000,
            }),
        },
    ),
    (
        &[
            "--tries",
            "64",
            "--make=7",
            "--callers",
            "4",
            "--lines=20000",
            "--nodes",
            "99",
        ],
        Options {
            callers: 4,
            nodes: Some(99),
            tries: Some(64),
            make: Some(Making {
                number: 7,
                lines: 20_000,
            }),
        },
    ),
];

#[test]
fn words_write_options(rt: HostRuntime) {
    for (words, options) in OPTIONS {
        expect(&rt, words, Some(*options));
    }
}

// Words that write no options.
const NO_OPTIONS: &[&[&str]] = &[
    // Out of range.
    &["--callers", "0"],
    &["--callers=65"],
    &["--nodes", "15"],
    &["--nodes=262145"],
    &["--tries=0"],
    &["--tries", "16385"],
    &["--make=2147483648", "--lines=1"],
    &["--make=1", "--lines=0"],
    &["--make", "1", "--lines", "1000001"],
    // Twice.
    &["--tries", "1", "--tries", "1"],
    &["--callers=1", "--callers", "2"],
    // One without the other, or for too many callers.
    &["--make", "1"],
    &["--lines=1"],
    &["--callers=9", "--make=7", "--lines=5"],
    // No value, or no number of one to ten digits.
    &["--callers"],
    &["--tries", "1", "--nodes"],
    &["--callers="],
    &["--callers", ""],
    &["--callers", "00000000001"],
    &["--callers=00000000001"],
    &["--callers", "+1"],
    &["--callers", " 1"],
    &["--callers=1=1"],
    &["--callers", "--nodes=16"],
    // No option.
    &["--caller", "1"],
    &["--callers ", "1"],
    &["--Callers=1"],
    &["-callers", "1"],
    &["callers=1"],
    &["--callers=1", "2"],
    &["1"],
    &["--"],
    &["="],
    &[""],
];

#[test]
fn other_words_write_none(rt: HostRuntime) {
    for words in NO_OPTIONS {
        expect(&rt, words, None);
    }
}
