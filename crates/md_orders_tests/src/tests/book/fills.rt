//! Days with fills.

use super::play;
use crate::tests::shown::same;
use md_book::{DEPTHS, OPEN_ORDERS, order_name};

// A sell order in one number, as the map of open orders has it: 11 bits for the side and the price,
// and 20 for what is left.
fn packed_sell(account: u64, price: u64, left: u64) -> u64 {
    let sell = 1;
    ((account << 1 | sell) << 10 | price) << 20 | left
}

// Fills of version 1, and the other commands beside them.
const TRADES: &str = "
    # each kind
    P 1:1 7 S 100 5 | placed
    F4 8 S 100 3 | filled 3 rest 0 from 1:1=3
    D S 100 | depth 2
    A 7 | bought 0 sold 3
    A 8 | bought 3 sold 0
    C 1:1 | cancelled 2
    C 1:1 | gone
    D S 100 | depth 0
    F4 8 S 100 1 | filled 0 rest 1
    # four dead places
    P 1:11 17 S 200 1 | placed
    P 1:12 17 S 200 1 | placed
    P 1:13 17 S 200 1 | placed
    P 1:14 17 S 200 1 | placed
    P 1:15 19 S 200 2 | placed
    C 1:11 | cancelled 1
    C 1:12 | cancelled 1
    C 1:13 | cancelled 1
    C 1:14 | cancelled 1
    F4 18 S 200 2 | filled 0 rest 2
    F4 18 S 200 2 | filled 2 rest 0 from 1:15=2
    A 17 | bought 0 sold 0
    A 18 | bought 2 sold 0
    A 19 | bought 0 sold 2
    # it ends at an order's end, and the four dead places behind that stay
    P 1:21 27 B 300 3 | placed
    P 1:22 27 B 300 1 | placed
    P 1:23 27 B 300 1 | placed
    P 1:24 27 B 300 1 | placed
    P 1:25 27 B 300 1 | placed
    P 1:26 27 B 300 2 | placed
    C 1:22 | cancelled 1
    C 1:23 | cancelled 1
    C 1:24 | cancelled 1
    C 1:25 | cancelled 1
    F4 28 B 300 3 | filled 3 rest 0 from 1:21=3
    F4 28 B 300 2 | filled 0 rest 2
    F4 28 B 300 2 | filled 2 rest 0 from 1:26=2
    A 27 | bought 5 sold 0
    A 28 | bought 0 sold 5
    # five orders, of which it looks at four
    P 1:31 37 S 400 1 | placed
    P 1:32 37 S 400 1 | placed
    P 1:33 37 S 400 1 | placed
    P 1:34 37 S 400 1 | placed
    P 1:35 37 S 400 1 | placed
    F4 38 S 400 5 | filled 4 rest 1 from 1:31=1 1:32=1 1:33=1 1:34=1
    D S 400 | depth 1
    # the same account on both sides
    P 1:41 47 B 10 5 | placed
    F4 47 B 10 5 | filled 5 rest 0 from 1:41=5
    A 47 | bought 5 sold 5
    # a cancel of its own line, of a later one, and of another caller's
    C 1:49 | gone
    C 1:53 | gone
    P 1:53 57 S 500 1 | placed
    P 2:1 57 S 500 4 | placed
    D S 500 | depth 5
    C 2:1 | cancelled 4
    D S 500 | depth 1
    # the largest quantities on one level, and an account that only sold
    P 1:61 9999 B 1000 1000000 | placed
    P 1:62 9999 B 1000 1000000 | placed
    D B 1000 | depth 2000000
    F4 9998 B 1000 1000000 | filled 1000000 rest 0 from 1:61=1000000
    F4 9998 B 1000 1 | filled 1 rest 0 from 1:62=1
    D B 1000 | depth 999999
    C 1:62 | cancelled 999999
    A 9999 | bought 1000001 sold 0
    A 9998 | bought 0 sold 1000001
    # the same account rests twice, and the second order is not emptied
    P 1:71 77 S 600 2 | placed
    P 1:72 77 S 600 3 | placed
    F4 78 S 600 4 | filled 4 rest 0 from 1:71=2 1:72=2
    A 77 | bought 0 sold 4
    D S 600 | depth 1
";

#[test]
fn trades(rt: HostRuntime) {
    let contents = play(&rt, TRADES, 69);
    let last = order_name(1, 72);
    let left = [
        contents.get(OPEN_ORDERS, last),
        contents.get(DEPTHS, 1599),
        contents.get(DEPTHS, 1099),
        contents.queue(1599).front().copied(),
    ];
    let want = [Some(packed_sell(77, 600, 1)), Some(1), None, Some(last)];
    same(&rt, &left, &want);
}

// Fills of version 2.
const FILLS_OF_TWELVE_PLACES: &str = "
    # five orders, all within its places
    P 1:1 7 S 100 1 | placed
    P 1:2 7 S 100 1 | placed
    P 1:3 7 S 100 1 | placed
    P 1:4 7 S 100 1 | placed
    P 1:5 7 S 100 1 | placed
    F12 8 S 100 5 | filled 5 rest 0 from 1:1=1 1:2=1 1:3=1 1:4=1 1:5=1
    A 7 | bought 0 sold 5
    A 8 | bought 5 sold 0
    # thirteen orders, of which it looks at twelve
    P 1:11 17 B 200 1 | placed
    P 1:12 17 B 200 1 | placed
    P 1:13 17 B 200 1 | placed
    P 1:14 17 B 200 1 | placed
    P 1:15 17 B 200 1 | placed
    P 1:16 17 B 200 1 | placed
    P 1:17 17 B 200 1 | placed
    P 1:18 17 B 200 1 | placed
    P 1:19 17 B 200 1 | placed
    P 1:20 17 B 200 1 | placed
    P 1:21 17 B 200 1 | placed
    P 1:22 17 B 200 1 | placed
    P 1:23 17 B 200 1 | placed
    # two of them dead
    C 1:12 | cancelled 1
    C 1:13 | cancelled 1
    F12 18 B 200 13 | filled 10 rest 3 from 1:11=1 1:14=1 1:15=1 1:16=1 1:17=1 1:18=1 1:19=1 1:20=1 1:21=1 1:22=1
    D B 200 | depth 1
    A 17 | bought 10 sold 0
    A 18 | bought 0 sold 10
    # the last name of the last caller
    P 64:1000000 27 S 300 7 | placed
    D S 300 | depth 7
    C 64:1000000 | cancelled 7
";

#[test]
fn a_fill_looks_at_twelve_places(rt: HostRuntime) {
    play(&rt, FILLS_OF_TWELVE_PLACES, 30);
}
