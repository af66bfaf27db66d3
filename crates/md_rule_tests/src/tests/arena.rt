//! Nodes and attempts are taken until none is left.

ghost use Rattle.std.specs.Prelude.{◌≡◌};
ghost use Rattle.md_machine.specs.Event.{first_pass};

use super::{blank, part_of, same, unstepped};
use example_cell::CellTheory;
use md_arena::{give_back, no_node_twice, take_descriptor, take_node};
use md_history::Limit;
use md_rule::Pass;
use md_words::{Shape, ShapeFault};
use std::alloc::AllocGlobal;
use std::process::Abort;

// Two lanes with 16 nodes and four attempts each.
fn two_lanes() -> Result<Shape, ShapeFault> {
    Shape::new(2, 16, 1, 4, 1, 64, 1)
}

// Takes a node of a pass that has made no step.
fn next(pass: &mut Pass<CellTheory>) -> Result<u32, Limit>
    requires { pass.old.view ≡ first_pass pass.old.shape }
    ensures { pass.new.view ≡ first_pass pass.new.shape }
{
    take_node(pass)
}

// Takes a node.
fn take(pass: &mut Pass<CellTheory>) -> Result<u32, Limit> {
    take_node(pass)
}

// Begins an attempt.
fn begin(pass: &mut Pass<CellTheory>) -> Result<u32, Limit> {
    take_descriptor(pass)
}

// Takes a node and gives it back.
fn taken_and_given_back(pass: &mut Pass<CellTheory>) -> Result<u32, Limit> {
    let node = take_node(pass)?;
    give_back(pass, node);
    Ok(node)
}

// A pass takes a node, and answers this.
fn assert_takes_one(rt: &impl Abort, pass: &mut Pass<CellTheory>, want: Result<u32, Limit>) {
    same(rt, &take(pass), &want);
}

// A pass takes the nodes from one to before another, in this order.
fn assert_takes(rt: &impl Abort, pass: &mut Pass<CellTheory>, from: u32, to: u32) {
    for node in from..to {
        assert_takes_one(rt, pass, Ok(node));
    }
}

// Two passes take sixteen nodes each, in turns, the one from 2 and the other from 18, and have none
// left.
fn assert_take_in_turns(
    rt: &impl Abort,
    first: &mut Pass<CellTheory>,
    second: &mut Pass<CellTheory>,
) {
    for i in 0..16u32 {
        assert_takes_one(rt, first, Ok(2 + i));
        assert_takes_one(rt, second, Ok(18 + i));
    }
    assert_takes_one(rt, first, Err(Limit::Nodes));
    assert_takes_one(rt, second, Err(Limit::Nodes));
}

// A pass begins an attempt, and answers this.
fn assert_begins_one(rt: &impl Abort, pass: &mut Pass<CellTheory>, want: Result<u32, Limit>) {
    same(rt, &begin(pass), &want);
}

// Two passes of a lane begin four attempts each, in turns, and have none left.
fn assert_begin_in_turns(
    rt: &impl Abort,
    first: &mut Pass<CellTheory>,
    second: &mut Pass<CellTheory>,
) {
    for i in 0..4u32 {
        let _ = i;
        assert_begins_one(rt, first, Ok(0));
        assert_begins_one(rt, second, Ok(1));
    }
    assert_begins_one(rt, first, Err(Limit::Tries));
    assert_begins_one(rt, second, Err(Limit::Tries));
}

// A pass of two lanes begins four attempts of the lower one, then four of the other, and has none
// left.
fn assert_begins(rt: &impl Abort, pass: &mut Pass<CellTheory>) {
    for i in 0..8u32 {
        assert_begins_one(rt, pass, Ok(i / 4));
    }
    assert_begins_one(rt, pass, Err(Limit::Tries));
}

// A node that is taken and given back is the last of the pass, and is taken again.
fn assert_last(rt: &impl Abort, pass: &mut Pass<CellTheory>, last: u32) {
    same(rt, &taken_and_given_back(pass), &Ok(last));
    assert_takes_one(rt, pass, Ok(last));
    assert_takes_one(rt, pass, Err(Limit::Nodes));
}

#[test]
fn a_pass_takes_the_nodes_of_its_lanes_from_the_lowest(rt: HostRuntime) {
    let (_, mut pass) = blank(&rt, two_lanes());
    assert_takes(&rt, &mut pass, 2, 34);
    assert_takes_one(&rt, &mut pass, Err(Limit::Nodes));
}

#[test]
fn each_part_takes_those_of_its_own_lane(rt: HostRuntime) {
    let (field, mut first) = blank(&rt, two_lanes());
    let mut second = part_of(&rt, &field, &mut first);
    assert_take_in_turns(&rt, &mut first, &mut second);
}

#[test]
fn a_node_given_back_is_taken_again(rt: HostRuntime) {
    let (_, mut pass) = unstepped(&rt, Shape::new(1, 2, 1, 4, 1, 64, 1));
    same(&rt, &next(&mut pass), &Ok(2));
    assert_last(&rt, &mut pass, 3);
    no_node_twice();
}

#[test]
fn the_last_node_of_a_lane_is_taken_again(rt: HostRuntime) {
    let (field, mut first) = blank(&rt, two_lanes());
    let _second = part_of(&rt, &field, &mut first);
    assert_takes(&rt, &mut first, 2, 17);
    assert_last(&rt, &mut first, 17);
}

// Passes of one lane each begin attempts.
fn assert_parts_begin<R: Abort + AllocGlobal>(rt: &R) {
    let (field, mut first) = blank(rt, two_lanes());
    let mut second = part_of(rt, &field, &mut first);
    assert_begin_in_turns(rt, &mut first, &mut second);
}

// A pass of both lanes begins attempts.
fn assert_whole_begins<R: Abort + AllocGlobal>(rt: &R) {
    let (_, mut whole) = blank(rt, two_lanes());
    assert_begins(rt, &mut whole);
}

#[test]
fn a_lane_begins_its_attempts_before_the_next_lane(rt: HostRuntime) {
    assert_parts_begin(&rt);
    assert_whole_begins(&rt);
}
