//! What a pass has used of its lanes.

ghost use Rattle.std.specs.Prelude.{◌≡◌, ◌≤◌};
ghost use Rattle.std.specs.List.{Contains};
ghost use Rattle.md_words.specs.declared.limits.TheConstants.{SET};
ghost use Rattle.md_rule_lanes.specs.Shares.{MayReturn, share_at, with_share};

use crate::pass::Pass;
use md_machine::Theory;
use md_rule_lanes::{set_nodes, set_tries};

impl<T: Theory> Pass<T> {
    /// How many nodes of a lane were taken: its lowest ones, at most the shape's `nodes`. The lane
    /// is the pass's. Constant time; it makes no step.
    pub fn nodes_taken(&self, lane: u32) -> u32
        requires { Contains self.now.view.lanes lane }
        ensures { result ≡ (share_at self.now.shares lane).nodes_taken }
    {
        self.shares[lane as usize].nodes_taken
    }

    /// How many attempts a lane has begun, at most the shape's `tries`. The lane is the pass's.
    /// Constant time; it makes no step.
    pub fn tries_taken(&self, lane: u32) -> u32
        requires { Contains self.now.view.lanes lane }
        ensures { result ≡ (share_at self.now.shares lane).tries_taken }
    {
        self.shares[lane as usize].tries_taken
    }

    /// How many slots the lane's last transaction wrote, at most `SET`. The lane is the pass's.
    /// Constant time; it makes no step.
    pub fn slots_written(&self, lane: u32) -> u32
        requires { Contains self.now.view.lanes lane }
        ensures slots { result ≡ (share_at self.now.shares lane).slots_written }
        ensures few { result ≤ SET }
    {
        self.shares[lane as usize].slots_written as u32
    }

    /// Whether the lane's last transaction was put in hand and not ended by `mark_end`. The lane is
    /// the pass's. Constant time; it makes no step.
    pub fn left_open(&self, lane: u32) -> bool
        requires { Contains self.now.view.lanes lane }
        ensures { result ≡ (share_at self.now.shares lane).left_open }
    {
        self.shares[lane as usize].left_open
    }

    /// Sets how many nodes of a lane are taken, at most the shape's `nodes`. The lane is the
    /// pass's, and nodes that come free are known to be free (`KnowsFree`). Constant time; it makes
    /// no step and has no refusal.
    pub fn set_nodes_taken(&mut self, lane: u32, taken: u32)
        requires lane { Contains self.old.view.lanes lane }
        requires fits { taken ≤ self.old.shape.nodes }
        requires free { MayReturn self.old.shape self.old.view lane taken
            (share_at self.old.shares lane).nodes_taken }
        ensures { self.new ≡ record self.old {
          shares = with_share self.old.shares lane
              (record (share_at self.old.shares lane) { nodes_taken = taken });
        } }
    {
        set_nodes(&mut self.shares, lane, taken);
    }

    /// Sets how many attempts a lane has begun, at most the shape's `tries` and no fewer than
    /// before. The lane is the pass's. Constant time; it makes no step and has no refusal.
    pub fn set_tries_taken(&mut self, lane: u32, taken: u32)
        requires lane { Contains self.old.view.lanes lane }
        requires fits { taken ≤ self.old.shape.tries }
        requires rises { (share_at self.old.shares lane).tries_taken ≤ taken }
        ensures { self.new ≡ record self.old {
          shares = with_share self.old.shares lane
              (record (share_at self.old.shares lane) { tries_taken = taken });
        } }
    {
        set_tries(&mut self.shares, lane, taken);
    }
}
