//! What a lane owns.

ghost use Rattle.std.specs.Prelude.{◌≡◌, ◌<◌, ◌≤◌};

use crate::shape::Shape;

impl Shape {
    ghost use Rattle.md_words.specs.Lanes.{node_of, desc_of, OwnsNode, OwnsDesc};
    ghost use Rattle.md_words.specs.Layout.{IsNode, desc_count};

    /// Node `i` of a lane, from 0 to `nodes - 1`. The lane exists.
    #[tactic(auto, unfolding(crate::specs::Lanes::node_of, crate::specs::Lanes::OwnsNode, crate::specs::Layout::node_count))]
    pub fn node_of(&self, lane: u32, i: u32) -> u32
        requires lane { lane < self.now.lanes }
        requires i { i < self.now.nodes }
        ensures node { result ≡ node_of self.now lane i }
        ensures owner { OwnsNode self.now lane result }
        ensures exists { IsNode self.now result }
    {
        self.base + lane * self.nodes + i + 1
    }

    /// The descriptor of a lane, which exists. All attempts of the lane use it, one after another.
    #[tactic(auto, unfolding(crate::specs::Lanes::OwnsDesc, crate::specs::Layout::desc_count))]
    pub fn desc_of(&self, lane: u32) -> u32
        requires { lane < self.now.lanes }
        ensures desc { result ≡ desc_of lane }
        ensures owner { OwnsDesc self.now lane result }
        ensures exists { result < desc_count self.now }
    {
        lane
    }
}
