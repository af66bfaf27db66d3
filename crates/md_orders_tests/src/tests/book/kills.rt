//! Days with kills.

use super::play;
use crate::tests::shown::same;
use md_book::{OPEN_ORDERS, order_name};

// Kills of version 1.
const KILLS: &str = "
    # a level without orders
    K4 8 S 100 1 | killed
    # one more than there is, and what there is
    P 1:1 7 S 100 5 | placed
    K4 8 S 100 6 | killed
    D S 100 | depth 5
    A 7 | bought 0 sold 0
    A 8 | bought 0 sold 0
    K4 8 S 100 5 | filled 5 rest 0 from 1:1=5
    D S 100 | depth 0
    A 7 | bought 0 sold 5
    A 8 | bought 5 sold 0
    # a part of an order, and then a whole one and a part of the next
    P 1:11 17 B 200 5 | placed
    P 1:12 17 B 200 3 | placed
    K4 18 B 200 2 | filled 2 rest 0 from 1:11=2
    D B 200 | depth 6
    K4 18 B 200 4 | filled 4 rest 0 from 1:11=3 1:12=1
    D B 200 | depth 2
    K4 18 B 200 3 | killed
    A 17 | bought 6 sold 0
    A 18 | bought 0 sold 6
    # five orders, of which it looks at four: one more than these have, and just what they have
    P 1:21 27 S 300 1 | placed
    P 1:22 27 S 300 1 | placed
    P 1:23 27 S 300 1 | placed
    P 1:24 27 S 300 1 | placed
    P 1:25 27 S 300 1 | placed
    K4 28 S 300 5 | killed
    D S 300 | depth 5
    K4 28 S 300 4 | filled 4 rest 0 from 1:21=1 1:22=1 1:23=1 1:24=1
    D S 300 | depth 1
    # dead places are places: three of the four, and they stay when it is killed
    P 1:31 37 B 400 1 | placed
    P 1:32 37 B 400 1 | placed
    P 1:33 37 B 400 1 | placed
    P 1:34 37 B 400 2 | placed
    P 1:35 37 B 400 1 | placed
    C 1:31 | cancelled 1
    C 1:32 | cancelled 1
    C 1:33 | cancelled 1
    K4 38 B 400 3 | killed
    K4 38 B 400 3 | killed
    K4 38 B 400 2 | filled 2 rest 0 from 1:34=2
    K4 38 B 400 1 | filled 1 rest 0 from 1:35=1
    # four dead places have nothing, and hide what is behind them
    P 1:41 47 S 500 1 | placed
    P 1:42 47 S 500 1 | placed
    P 1:43 47 S 500 1 | placed
    P 1:44 47 S 500 1 | placed
    P 1:45 47 S 500 9 | placed
    C 1:41 | cancelled 1
    C 1:42 | cancelled 1
    C 1:43 | cancelled 1
    C 1:44 | cancelled 1
    K4 48 S 500 1 | killed
    D S 500 | depth 9
    # an account at its own orders
    P 1:51 57 B 10 5 | placed
    K4 57 B 10 6 | killed
    A 57 | bought 0 sold 0
    K4 57 B 10 5 | filled 5 rest 0 from 1:51=5
    A 57 | bought 5 sold 5
    # the largest quantity, of two orders
    P 1:61 67 S 1000 999999 | placed
    P 1:62 67 S 1000 1000000 | placed
    K4 68 S 1000 1000000 | filled 1000000 rest 0 from 1:61=999999 1:62=1
    D S 1000 | depth 999999
";

#[test]
fn a_kill_takes_all_or_nothing(rt: HostRuntime) {
    let contents = play(&rt, KILLS, 60);
    let hidden = contents.get(OPEN_ORDERS, order_name(1, 45)).is_some();
    let first = contents.queue(1499).front().copied();
    same(&rt, &(hidden, first), &(true, Some(order_name(1, 41))));
}

// Kills of version 2.
const KILLS_OF_TWELVE_PLACES: &str = "
    # thirteen orders: one more than twelve have, and just what they have
    P 1:1 7 S 100 1 | placed
    P 1:2 7 S 100 1 | placed
    P 1:3 7 S 100 1 | placed
    P 1:4 7 S 100 1 | placed
    P 1:5 7 S 100 1 | placed
    P 1:6 7 S 100 1 | placed
    P 1:7 7 S 100 1 | placed
    P 1:8 7 S 100 1 | placed
    P 1:9 7 S 100 1 | placed
    P 1:10 7 S 100 1 | placed
    P 1:11 7 S 100 1 | placed
    P 1:12 7 S 100 1 | placed
    P 1:13 7 S 100 1 | placed
    K4 8 S 100 5 | killed
    K12 8 S 100 13 | killed
    D S 100 | depth 13
    K12 8 S 100 12 | filled 12 rest 0 from 1:1=1 1:2=1 1:3=1 1:4=1 1:5=1 1:6=1 1:7=1 1:8=1 1:9=1 1:10=1 1:11=1 1:12=1
    D S 100 | depth 1
    A 7 | bought 0 sold 12
    A 8 | bought 12 sold 0
    # eleven dead places before an order
    P 1:21 17 B 200 1 | placed
    P 1:22 17 B 200 1 | placed
    P 1:23 17 B 200 1 | placed
    P 1:24 17 B 200 1 | placed
    P 1:25 17 B 200 1 | placed
    P 1:26 17 B 200 1 | placed
    P 1:27 17 B 200 1 | placed
    P 1:28 17 B 200 1 | placed
    P 1:29 17 B 200 1 | placed
    P 1:30 17 B 200 1 | placed
    P 1:31 17 B 200 1 | placed
    P 1:32 17 B 200 2 | placed
    P 1:33 17 B 200 1 | placed
    C 1:21 | cancelled 1
    C 1:22 | cancelled 1
    C 1:23 | cancelled 1
    C 1:24 | cancelled 1
    C 1:25 | cancelled 1
    C 1:26 | cancelled 1
    C 1:27 | cancelled 1
    C 1:28 | cancelled 1
    C 1:29 | cancelled 1
    C 1:30 | cancelled 1
    C 1:31 | cancelled 1
    K4 18 B 200 1 | killed
    K12 18 B 200 3 | killed
    K12 18 B 200 2 | filled 2 rest 0 from 1:32=2
    K12 18 B 200 1 | filled 1 rest 0 from 1:33=1
    K12 18 B 200 1 | killed
    A 17 | bought 3 sold 0
    A 18 | bought 0 sold 3
";

#[test]
fn a_kill_looks_at_twelve_places(rt: HostRuntime) {
    play(&rt, KILLS_OF_TWELVE_PLACES, 51);
}
