//! Attempts are begun with the descriptor of the lowest lane that has one left.

ghost use Rattle.std.specs.Prelude.{◌≡◌, ◌↔◌, IfOk, IfErr};
ghost use Rattle.md_machine.specs.Own.{HasDesc};
ghost use Rattle.md_arena.specs.Left.{HasTryLeft, NoLane};
ghost use Rattle.md_arena.specs.Taking.{TakesDesc};

use crate::lowest::lane_with_try;
use md_history::Limit;
use md_machine::Theory;
use md_rule::Pass;

/// Takes the descriptor of the pass's lowest lane that has begun fewer attempts than it may: that
/// lane has then begun one more. The answer is `Limit::Tries` exactly if each lane has begun all
/// of its attempts. Nothing but that lane's share is changed.
///
/// It takes constant time if the pass's first lane has an attempt left. Otherwise it looks at the
/// lanes up to the first that has one, and takes time quadratic in their number.
pub fn take_descriptor<T: Theory>(pass: &mut Pass<T>) -> Result<u32, Limit>
    ensures takes { IfOk result (λ desc. TakesDesc pass.old desc pass.new) }
    ensures own { IfOk result (HasDesc pass.old.shape pass.old.view) }
    ensures none { (result ≡ Err Limit.Tries) ↔ NoLane pass.old (HasTryLeft pass.old) }
    ensures limit { IfErr result (λ limit. (limit ≡ Limit.Tries) × (pass.new ≡ pass.old)) }
{
    let Some(lane) = lane_with_try(pass) else {
        return Err(Limit::Tries);
    };
    let begun = pass.tries_taken(lane);
    let desc = pass.shape().desc_of(lane);
    pass.set_tries_taken(lane, begun + 1);
    Ok(desc)
}
