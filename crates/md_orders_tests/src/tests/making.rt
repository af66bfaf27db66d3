//! Made scripts.

use crate::tests::shown::{are_alike, same};
use md_book::{Command, order_name};
use md_orders::{Maker, Scripts, make, read_orders};
use std::process::Abort;

// Three lines were made, and there is none before them and none behind.
fn has_three_lines(rt: &impl Abort, made: &Scripts) {
    let others = [made.command(1, 0).is_none(), made.command(1, 4).is_none()];
    same(rt, &(made.total(), others), &(3, [true; 2]));
}

// The first fifteen draws of the standard's example are 16838, 5758, 10113, 17515, 31051, 5627,
// 23010, 7419, 16212, 4086, 2749, 12767, 9084, 12060 and 32225: five for each line.
#[test]
fn made_scripts_are_those_of_a_file(rt: HostRuntime) {
    let alloc = rt.alloc();
    let made = make(alloc, 1, 3, 1).expect(&rt, "memory");
    has_three_lines(&rt, &made);
    let orders = b"1,P,1758,S,41,52\n1,P,1010,S,17,87\n1,P,1767,B,1,26\n";
    are_alike(&rt, Ok(made), read_orders(alloc, orders, 1));
}

// A caller and a line, and whether scripts have the command there.
fn in_scripts(scripts: &Scripts, made: (u32, u32, Command)) -> (u32, u32, bool) {
    let (caller, line, command) = made;
    (caller, line, scripts.command(caller, line) == Some(command))
}

#[test]
fn commands_are_made_in_turn(rt: HostRuntime) {
    let scripts = make(rt.alloc(), 7, 4, 3).expect(&rt, "memory");
    let mut maker = Maker::new(7, 3);
    let first = in_scripts(&scripts, maker.next());
    let second = in_scripts(&scripts, maker.next());
    let third = in_scripts(&scripts, maker.next());
    let fourth = in_scripts(&scripts, maker.next());
    let want = [(1, 1, true), (2, 1, true), (3, 1, true), (1, 2, true)];
    same(&rt, &[first, second, third, fourth], &want);
}

// The order that a line of the first caller cancels.
fn cancelled(scripts: &Scripts, line: u32) -> Option<u64> {
    match scripts.command(1, line) {
        Some(Command::Cancel { name }) => Some(name),
        _ => None,
    }
}

// The line cancels the order of another line.
fn is_cancel(rt: &impl Abort, made: &Scripts, line: u32, of: u32) {
    let want = (line, Some(order_name(1, of)));
    same(rt, &(line, cancelled(made, line)), &want);
}

// A cancel at a line after 32,767 shows a draw as it is: it names the order of the line whose
// number is one more.
fn has_draws(rt: &impl Abort, made: &Scripts) {
    is_cancel(rt, made, 32_770, 10_467);
    is_cancel(rt, made, 32_771, 24_770);
    is_cancel(rt, made, 32_786, 27_376);
    is_cancel(rt, made, 32_795, 28_489);
    is_cancel(rt, made, 32_812, 14_306);
    is_cancel(rt, made, 32_821, 16_794);
    is_cancel(rt, made, 32_828, 28_804);
    is_cancel(rt, made, 32_835, 4_710);
    is_cancel(rt, made, 32_854, 2_385);
    is_cancel(rt, made, 32_869, 7_664);
    is_cancel(rt, made, 32_874, 31_810);
    is_cancel(rt, made, 32_876, 29_461);
    is_cancel(rt, made, 32_883, 16_052);
    is_cancel(rt, made, 32_893, 12_239);
    is_cancel(rt, made, 32_895, 31_170);
}

#[test]
fn draws_are_those_of_the_standard(rt: HostRuntime) {
    let made = make(rt.alloc(), 1, 33_000, 1).expect(&rt, "memory");
    has_draws(&rt, &made);
}
