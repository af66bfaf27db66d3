//! The lowest lane of a pass that has something left.

ghost use Rattle.std.specs.Prelude.{IfSome, IfNone};
ghost use Rattle.md_arena.specs.Left.{HasNodeLeft, HasTryLeft, IsLowest, NoLane};

use md_machine::Theory;
use md_rule::Pass;

// The lowest lane that has a node left. The first lane is tried before the others are counted.
pub(crate) fn lane_with_node<T: Theory>(pass: &Pass<T>) -> Option<u32>
    ensures some { IfSome result (IsLowest pass.now (HasNodeLeft pass.now)) }
    ensures none { IfNone result (NoLane pass.now (HasNodeLeft pass.now)) }
{
    let nodes = pass.shape().nodes;
    let first = pass.lane(0);
    if pass.nodes_taken(first) < nodes {
        return Some(first);
    }
    for place in 1..pass.lanes() {
        let lane = pass.lane(place);
        if pass.nodes_taken(lane) < nodes {
            return Some(lane);
        }
    }
    None
}

// The lowest lane that has an attempt left.
pub(crate) fn lane_with_try<T: Theory>(pass: &Pass<T>) -> Option<u32>
    ensures some { IfSome result (IsLowest pass.now (HasTryLeft pass.now)) }
    ensures none { IfNone result (NoLane pass.now (HasTryLeft pass.now)) }
{
    let tries = pass.shape().tries;
    let first = pass.lane(0);
    if pass.tries_taken(first) < tries {
        return Some(first);
    }
    for place in 1..pass.lanes() {
        let lane = pass.lane(place);
        if pass.tries_taken(lane) < tries {
            return Some(lane);
        }
    }
    None
}
