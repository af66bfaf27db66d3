//! Runs with words.

use crate::tests::{AMPLE, ORDER, REPORT, USAGE, expect_with};
use md_program::Status;

const NOT_ACCEPTED: &[&[&str]] = &[
    &["--callers", "65"],
    &["--make", "1"],
    &["--tries", "1", "--tries", "1"],
    &["--callers=9", "--make=7", "--lines=5"],
];

#[test]
fn words_that_are_not_accepted(rt: HostRuntime) {
    for words in NOT_ACCEPTED {
        expect_with(&rt, words, ORDER, AMPLE, Status::Usage, USAGE);
    }
}

// Two callers at levels and orders of their own: each reply is the same in any order of the lines.
const TWO: &[u8] = b"1,P,7,S,100,5\n1,F,8,S,100,2\n2,P,17,B,200,4\n2,C,2,1\n";

const TWO_REPORT: &[u8] = b"1:1 placed\n1:2 filled 2 rest 0 from 1:1=2\n2:1 placed\n\
    2:2 cancelled 4\nS 100 3\naccount 7 bought 0 sold 2\naccount 8 bought 2 sold 0\ndone 4\n";

// Words, an input, and its report.
const REPORTS: &[(&[&str], &[u8], &[u8])] = &[
    (&["--callers", "2"], TWO, TWO_REPORT),
    (&["--callers=2", "--tries=1"], TWO, TWO_REPORT),
    (&["--callers=2", "--nodes=16"], TWO, TWO_REPORT),
    (&["--callers=8"], TWO, TWO_REPORT),
    (&["--callers", "64"], ORDER, REPORT),
    (
        &["--callers", "64"],
        b"medley,2\n64,D,S,1\n",
        b"64:1 depth 0\ndone 1\n",
    ),
];

// What is printed doesn't depend on how many callers there may be, nor on nodes or attempts.
#[test]
fn reports_of_several_callers(rt: HostRuntime) {
    for (words, input, want) in REPORTS {
        expect_with(&rt, words, input, AMPLE, Status::Done, want);
    }
}

// Words, an input with a caller that there is not, and the number of its line.
const OTHER_CALLERS: &[(&[&str], &[u8], u32, &[u8])] = &[
    (&["--callers", "64"], b"9,D,S,1\n", 1, b"fault line 1\n"),
    (
        &["--callers=2"],
        b"1,D,S,1\n3,D,S,1\n",
        2,
        b"fault line 2\n",
    ),
    (
        &["--callers=63"],
        b"medley,2\n64,D,S,1\n",
        2,
        b"fault line 2\n",
    ),
];

// The first version has eight callers, whatever the words say, and the second as many as they say.
#[test]
fn callers_that_there_are_not(rt: HostRuntime) {
    for (words, input, line, text) in OTHER_CALLERS {
        expect_with(&rt, words, input, AMPLE, Status::BadLine(*line), text);
    }
}

// Each line in a round of its own, since the first attempt of a round uses up the lane's one.
#[test]
fn one_attempt_a_round(rt: HostRuntime) {
    let input = b"1,P,101,B,995,200\n1,P,102,S,1000,150\n1,P,103,S,999,80\n1,D,S,999\n\
        1,F,104,S,999,100\n1,C,1,2\n1,A,104\n1,F,105,B,995,50\n";
    let want = b"1:1 placed\n1:2 placed\n1:3 placed\n1:4 depth 80\n\
        1:5 filled 80 rest 20 from 1:3=80\n1:6 cancelled 150\n1:7 bought 80 sold 0\n\
        1:8 filled 50 rest 0 from 1:1=50\nB 995 150\naccount 101 bought 50 sold 0\n\
        account 103 bought 0 sold 80\naccount 104 bought 80 sold 0\n\
        account 105 bought 0 sold 50\ndone 8\n";
    expect_with(&rt, &["--tries", "1"], input, AMPLE, Status::Done, want);
}
