//! The limits, as the order file writes them.

use crate::tests::shown::same;
use md_book::{
    BOUGHT, COMMAND_NODES, COMMAND_READS, COMMAND_WRITES, DEPTHS, LEVELS, MAPS, MAX_ACCOUNT,
    MAX_CALLER, MAX_PARTS, MAX_PRICE, MAX_QUANTITY, MAX_SCRIPT_LINE, OPEN_ORDERS,
    PLACES_IN_VERSION_1, PLACES_IN_VERSION_2, SOLD,
};

// All else stands by these names alone, so no proof can tell a wrong number from the right one.
#[test]
fn limits_are_those_of_the_order_file(rt: HostRuntime) {
    let places = (PLACES_IN_VERSION_1, PLACES_IN_VERSION_2, MAX_PARTS);
    let highest = [
        MAX_CALLER,
        MAX_SCRIPT_LINE,
        MAX_ACCOUNT,
        MAX_PRICE,
        MAX_QUANTITY,
    ];
    let most = [COMMAND_READS, COMMAND_WRITES, COMMAND_NODES];
    let kept = [OPEN_ORDERS, DEPTHS, BOUGHT, SOLD, MAPS, LEVELS];
    same(
        &rt,
        &(places, highest, most, kept),
        &(
            (4, 12, 12),
            [64, 1_000_000, 9_999, 1_000, 1_000_000],
            [39, 82, 15],
            [0, 1, 2, 3, 4, 2_000],
        ),
    );
}
