//! Nodes are taken from the lowest lane that has one left, and given back in the other order.

ghost use Rattle.std.specs.Prelude.{◌≡◌, ◌↔◌, IfOk, IfErr};
ghost use Rattle.md_machine.specs.FreeToReturn.{KnowsFree};
ghost use Rattle.md_machine.specs.Own.{HasNode};
ghost use Rattle.md_rule.specs.Kept.{IsLeft};
ghost use Rattle.md_arena.specs.Left.{HasNodeLeft, IsTaken, NoLane};
ghost use Rattle.md_arena.specs.Taking.{GivesNode, IsHighestTaken, IsLowestLeft, TakesNode};

use crate::lowest::lane_with_node;
use md_history::Limit;
use md_machine::Theory;
use md_rule::Pass;

/// Takes the lowest node that is left of the pass's lanes: the next one of its lowest lane that
/// has one left. The pass knows that it is free. The answer is `Limit::Nodes` exactly if no lane
/// has a node left. Nothing but that lane's share is changed.
///
/// It takes constant time if the pass's first lane has a node left. Otherwise it looks at the lanes
/// up to the first that has one, and takes time quadratic in their number.
pub fn take_node<T: Theory>(pass: &mut Pass<T>) -> Result<u32, Limit>
    ensures takes { IfOk result (λ node. TakesNode pass.old node pass.new) }
    ensures own { IfOk result (HasNode pass.old.shape pass.old.view) }
    ensures lowest { IfOk result (IsLowestLeft pass.old) }
    ensures taken { IfOk result (IsTaken pass.new) }
    ensures free { IfOk result (KnowsFree pass.old.shape pass.old.view) }
    ensures none { (result ≡ Err Limit.Nodes) ↔ NoLane pass.old (HasNodeLeft pass.old) }
    ensures limit { IfErr result (λ limit. (limit ≡ Limit.Nodes) × (pass.new ≡ pass.old)) }
{
    let Some(lane) = lane_with_node(pass) else {
        return Err(Limit::Nodes);
    };
    let taken = pass.nodes_taken(lane);
    let node = pass.shape().node_of(lane, taken);
    pass.set_nodes_taken(lane, taken + 1);
    Ok(node)
}

/// Gives a node back that the pass took and doesn't use: the highest taken of its lane, which is
/// left again. The pass must know that it is free. Its words stay. It takes constant time.
pub fn give_back<T: Theory>(pass: &mut Pass<T>, node: u32)
    requires highest { IsHighestTaken pass.old node }
    requires free { KnowsFree pass.old.shape pass.old.view node }
    ensures gives { GivesNode pass.old node pass.new }
    ensures left { IsLeft pass.new node }
{
    let shape = *pass.shape();
    let lane = (node - shape.base - 1) / shape.nodes;
    let taken = pass.nodes_taken(lane) - 1;
    pass.set_nodes_taken(lane, taken);
}
