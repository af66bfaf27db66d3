//! Inputs and their reports, worked out by hand.

use crate::tests::{AMPLE, expect};
use md_program::Status;

// Inputs, each with its report.
const REPORTS: &[(&[u8], &[u8])] = &[
    // Nothing, and one order.
    (b"", b"done 0\n"),
    (b"1,P,7,S,100,5\n", b"1:1 placed\nS 100 5\ndone 1\n"),
    (
        b"1,P,9999,B,1000,1000000\n",
        b"1:1 placed\nB 1000 1000000\ndone 1\n",
    ),
    // A part of an order is filled.
    (
        b"1,P,7,S,100,5\n1,F,8,S,100,3\n",
        b"1:1 placed\n1:2 filled 3 rest 0 from 1:1=3\nS 100 2\n\
         account 7 bought 0 sold 3\naccount 8 bought 3 sold 0\ndone 2\n",
    ),
    // A second cancel finds nothing; nor does a fill.
    (
        b"1,P,7,B,50,5\n1,C,1,1\n1,C,1,1\n",
        b"1:1 placed\n1:2 cancelled 5\n1:3 gone\ndone 3\n",
    ),
    (
        b"1,P,7,S,100,5\n1,C,1,1\n1,F,8,S,100,3\n",
        b"1:1 placed\n1:2 cancelled 5\n1:3 filled 0 rest 3\ndone 3\n",
    ),
    // A fill looks at four places: four orders, or four that were cancelled.
    (
        b"1,P,7,S,100,1\n1,P,7,S,100,1\n1,P,7,S,100,1\n1,P,7,S,100,1\n1,P,7,S,100,1\n\
         1,F,8,S,100,5\n",
        b"1:1 placed\n1:2 placed\n1:3 placed\n1:4 placed\n1:5 placed\n\
         1:6 filled 4 rest 1 from 1:1=1 1:2=1 1:3=1 1:4=1\nS 100 1\n\
         account 7 bought 0 sold 4\naccount 8 bought 4 sold 0\ndone 6\n",
    ),
    (
        b"1,P,7,S,100,1\n1,P,7,S,100,1\n1,P,7,S,100,1\n1,P,7,S,100,1\n1,P,9,S,100,2\n\
         1,C,1,1\n1,C,1,2\n1,C,1,3\n1,C,1,4\n1,F,8,S,100,2\n1,F,8,S,100,2\n",
        b"1:1 placed\n1:2 placed\n1:3 placed\n1:4 placed\n1:5 placed\n\
         1:6 cancelled 1\n1:7 cancelled 1\n1:8 cancelled 1\n1:9 cancelled 1\n\
         1:10 filled 0 rest 2\n1:11 filled 2 rest 0 from 1:5=2\n\
         account 8 bought 2 sold 0\naccount 9 bought 0 sold 2\ndone 11\n",
    ),
    // The fourth place gives, after three that were cancelled.
    (
        b"1,P,7,B,3,1\n1,P,7,B,3,2\n1,P,7,B,3,3\n1,P,9,B,3,4\n1,P,9,B,3,5\n\
         1,C,1,1\n1,C,1,2\n1,C,1,3\n1,F,8,B,3,6\n1,F,8,B,3,2\n",
        b"1:1 placed\n1:2 placed\n1:3 placed\n1:4 placed\n1:5 placed\n\
         1:6 cancelled 1\n1:7 cancelled 2\n1:8 cancelled 3\n\
         1:9 filled 4 rest 2 from 1:4=4\n1:10 filled 2 rest 0 from 1:5=2\nB 3 3\n\
         account 8 bought 0 sold 6\naccount 9 bought 6 sold 0\ndone 10\n",
    ),
    // A fill ends at an order's end, and a cancelled order is behind it.
    (
        b"1,P,7,S,100,5\n1,P,8,S,100,3\n1,P,9,S,100,2\n1,C,1,2\n1,F,4,S,100,5\n1,F,4,S,100,1\n",
        b"1:1 placed\n1:2 placed\n1:3 placed\n1:4 cancelled 3\n\
         1:5 filled 5 rest 0 from 1:1=5\n1:6 filled 1 rest 0 from 1:3=1\nS 100 1\n\
         account 4 bought 6 sold 0\naccount 7 bought 0 sold 5\naccount 9 bought 0 sold 1\n\
         done 6\n",
    ),
    // An order is passed when it is emptied, and one that comes later is found.
    (
        b"1,P,7,S,100,5\n1,F,8,S,100,9\n1,F,8,S,100,4\n1,P,7,S,100,2\n1,F,8,S,100,1\n",
        b"1:1 placed\n1:2 filled 5 rest 4 from 1:1=5\n1:3 filled 0 rest 4\n1:4 placed\n\
         1:5 filled 1 rest 0 from 1:4=1\nS 100 1\n\
         account 7 bought 0 sold 6\naccount 8 bought 6 sold 0\ndone 5\n",
    ),
    // One account in two parts of a fill, and one on both sides.
    (
        b"1,P,7,S,100,2\n1,P,7,S,100,3\n1,F,8,S,100,4\n",
        b"1:1 placed\n1:2 placed\n1:3 filled 4 rest 0 from 1:1=2 1:2=2\nS 100 1\n\
         account 7 bought 0 sold 4\naccount 8 bought 4 sold 0\ndone 3\n",
    ),
    (
        b"1,P,7,B,10,5\n1,F,7,B,10,5\n",
        b"1:1 placed\n1:2 filled 5 rest 0 from 1:1=5\naccount 7 bought 5 sold 5\ndone 2\n",
    ),
    (
        b"1,P,7,S,10,5\n1,P,8,S,10,5\n1,F,7,S,10,7\n1,A,7\n",
        b"1:1 placed\n1:2 placed\n1:3 filled 7 rest 0 from 1:1=5 1:2=2\n1:4 bought 7 sold 5\n\
         S 10 3\naccount 7 bought 7 sold 5\naccount 8 bought 0 sold 2\ndone 4\n",
    ),
    // Both sides of one price.
    (
        b"1,P,1,B,500,10\n1,P,2,S,500,10\n1,F,3,B,500,4\n1,F,3,S,500,6\n1,A,3\n1,A,2\n\
         1,D,B,500\n1,D,S,500\n",
        b"1:1 placed\n1:2 placed\n1:3 filled 4 rest 0 from 1:1=4\n\
         1:4 filled 6 rest 0 from 1:2=6\n1:5 bought 6 sold 4\n1:6 bought 0 sold 6\n\
         1:7 depth 6\n1:8 depth 4\nB 500 6\nS 500 4\n\
         account 1 bought 4 sold 0\naccount 2 bought 0 sold 6\naccount 3 bought 6 sold 4\n\
         done 8\n",
    ),
    // Cancels of what is no open order: its own line, a later one, other callers', a depth, a
    // filled order.
    (b"1,C,1,1\n", b"1:1 gone\ndone 1\n"),
    (
        b"1,C,1,2\n1,P,7,S,100,5\n1,C,2,1\n1,C,8,1000000\n1,D,S,1\n1,C,1,5\n",
        b"1:1 gone\n1:2 placed\n1:3 gone\n1:4 gone\n1:5 depth 0\n1:6 gone\nS 100 5\ndone 6\n",
    ),
    (
        b"1,P,7,B,50,5\n1,F,8,B,50,2\n1,C,1,1\n1,P,7,B,50,1\n1,F,8,B,50,1\n1,C,1,4\n",
        b"1:1 placed\n1:2 filled 2 rest 0 from 1:1=2\n1:3 cancelled 3\n1:4 placed\n\
         1:5 filled 1 rest 0 from 1:4=1\n1:6 gone\n\
         account 7 bought 3 sold 0\naccount 8 bought 0 sold 3\ndone 6\n",
    ),
    // The largest quantities at one level.
    (
        b"1,P,9999,B,1000,1000000\n1,P,9999,B,1000,1000000\n1,P,9999,B,1000,1000000\n\
         1,P,9999,B,1000,1000000\n1,P,9999,B,1000,1000000\n1,F,1,B,1000,999999\n\
         1,F,1,B,1000,1000000\n1,D,B,1000\n1,A,9999\n1,F,1,B,1000,1000000\n1,C,1,5\n",
        b"1:1 placed\n1:2 placed\n1:3 placed\n1:4 placed\n1:5 placed\n\
         1:6 filled 999999 rest 0 from 1:1=999999\n\
         1:7 filled 1000000 rest 0 from 1:1=1 1:2=999999\n1:8 depth 3000001\n\
         1:9 bought 1999999 sold 0\n1:10 filled 1000000 rest 0 from 1:2=1 1:3=999999\n\
         1:11 cancelled 1000000\nB 1000 1000001\n\
         account 1 bought 0 sold 2999999\naccount 9999 bought 2999999 sold 0\ndone 11\n",
    ),
    // Sums of what has none, and of what has orders but no trades.
    (b"1,A,7\n", b"1:1 bought 0 sold 0\ndone 1\n"),
    (b"1,D,B,1\n", b"1:1 depth 0\ndone 1\n"),
    (
        b"1,P,7,S,100,5\n1,A,7\n1,F,9,B,100,4\n1,A,9\n",
        b"1:1 placed\n1:2 bought 0 sold 0\n1:3 filled 0 rest 4\n1:4 bought 0 sold 0\n\
         S 100 5\ndone 4\n",
    ),
    // Levels and accounts are printed in their order, whatever that of the orders.
    (
        b"1,P,7,S,1000,4\n1,P,7,S,2,3\n1,P,7,B,1000,2\n1,P,7,B,9,1\n1,P,7,B,99,6\n\
         1,F,9999,B,99,1\n1,F,10,B,99,1\n1,F,9,B,99,1\n1,F,2,B,99,1\n",
        b"1:1 placed\n1:2 placed\n1:3 placed\n1:4 placed\n1:5 placed\n\
         1:6 filled 1 rest 0 from 1:5=1\n1:7 filled 1 rest 0 from 1:5=1\n\
         1:8 filled 1 rest 0 from 1:5=1\n1:9 filled 1 rest 0 from 1:5=1\n\
         B 9 1\nB 99 2\nB 1000 2\nS 2 3\nS 1000 4\naccount 2 bought 0 sold 1\n\
         account 7 bought 4 sold 0\naccount 9 bought 0 sold 1\naccount 10 bought 0 sold 1\n\
         account 9999 bought 0 sold 1\ndone 9\n",
    ),
    // Ends of lines, blank lines, quotes, zeros, a byte order mark.
    (
        b"1,P,7,S,100,5\r\n\r\n1,\"D\",S,100",
        b"1:1 placed\n1:2 depth 5\nS 100 5\ndone 2\n",
    ),
    (
        b"\xEF\xBB\xBF\"1\",P,0000000007,S,0100,05\r\r\n\n01,F,\"1\"2,S,100,05\n1,A,\"7",
        b"1:1 placed\n1:2 filled 5 rest 0 from 1:1=5\n1:3 bought 0 sold 5\n\
         account 7 bought 0 sold 5\naccount 12 bought 5 sold 0\ndone 3\n",
    ),
    // A kill that asks for more than there is, one that is filled, and one past four places.
    (
        b"1,P,7,S,100,5\n1,K,8,S,100,6\n1,K,8,S,100,5\n",
        b"1:1 placed\n1:2 killed\n1:3 filled 5 rest 0 from 1:1=5\n\
         account 7 bought 0 sold 5\naccount 8 bought 5 sold 0\ndone 3\n",
    ),
    (
        b"1,P,7,S,100,1\n1,P,7,S,100,1\n1,P,7,S,100,1\n1,P,7,S,100,1\n1,P,7,S,100,1\n\
         1,K,8,S,100,5\n",
        b"1:1 placed\n1:2 placed\n1:3 placed\n1:4 placed\n1:5 placed\n1:6 killed\n\
         S 100 5\ndone 6\n",
    ),
    // Version 2: more places, and the version's record is no line.
    (
        b"medley,2\n1,P,7,S,100,1\n1,P,7,S,100,1\n1,P,7,S,100,1\n1,P,7,S,100,1\n\
         1,P,7,S,100,1\n1,F,8,S,100,5\n",
        b"1:1 placed\n1:2 placed\n1:3 placed\n1:4 placed\n1:5 placed\n\
         1:6 filled 5 rest 0 from 1:1=1 1:2=1 1:3=1 1:4=1 1:5=1\n\
         account 7 bought 0 sold 5\naccount 8 bought 5 sold 0\ndone 6\n",
    ),
    (b"medley,2", b"done 0\n"),
    (b"\"medley\",\"2\"", b"done 0\n"),
];

#[test]
fn inputs(rt: HostRuntime) {
    for (input, text) in REPORTS {
        expect(&rt, input, AMPLE, Status::Done, text);
    }
}
