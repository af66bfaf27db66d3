//! What a pass keeps of its lanes, lent to a proof.

ghost use Rattle.std.specs.Prelude.{◌≡◌, length};
ghost use Rattle.md_rule.specs.Kept.{KeepsLanes};
ghost use Rattle.md_rule.specs.Lanes.{AreLanes};

use md_machine::Theory;
use md_rule::Pass;

/// Lends to a proof what a pass keeps of its lanes: each is a lane of the field, there is a share
/// for every lane, and so much is kept of each of the pass's lanes. It needs nothing, and does
/// nothing when it runs.
pub fn kept<T: Theory>(pass: &Pass<T>)
    ensures lanes { AreLanes pass.now.shape pass.now.view.lanes }
    ensures kept { KeepsLanes pass.now.shape pass.now.view pass.now.shares }
    ensures shares { length pass.now.shares ≡ 64 }
{
    let _ = pass.shape();
}
