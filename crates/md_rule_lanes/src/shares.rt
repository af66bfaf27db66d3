//! What a pass keeps of each of its lanes.

ghost use Rattle.std.specs.Prelude.{◌≡◌, ◌<◌, if◌then◌else◌, length};
ghost use Rattle.md_words.specs.declared.limits.TheConstants.{LANES, SET};
ghost use Rattle.md_rule_lanes.specs.declared.shares.TheConstants.{SHARES};
ghost use Rattle.md_rule_lanes.specs.Shares.{after_slot, after_begin, after_end, after_restart};
ghost use Rattle.md_rule_lanes.specs.Shares.{joined_shares, share_at, with_share};

use crate::lanes::Lanes;
use md_words::{LANES, Spot};

/// What was used of a lane, and what its last transaction left.
#[derive(Clone, Copy, Debug, PartialEq, Eq)]
pub struct Share {
    /// How many of its nodes were taken, from the lowest.
    pub nodes_taken: u32,
    /// How many attempts it has begun.
    pub tries_taken: u32,
    /// How many slots its last transaction wrote.
    pub slots_written: u8,
    /// Its last transaction was put in hand, and not ended.
    pub left_open: bool,
}

/// How many shares a pass keeps: one for each lane that a shape may have.
pub const SHARES: usize = LANES as usize;

/// The share of a lane that wasn't used.
pub const UNUSED: Share = Share {
    nodes_taken: 0,
    tries_taken: 0,
    slots_written: 0,
    left_open: false,
};

/// The shares of another pass's lanes take the place of those here.
pub fn take_shares(mine: &mut [Share; SHARES], lanes: &Lanes, others: &[Share; SHARES])
    ensures { mine.new ≡ joined_shares lanes.now mine.old others.now }
{
    for lane in 0..LANES {
        let place = lane as usize;
        mine[place] = one_of(lanes.has(lane), others[place], mine[place]);
    }
}

fn one_of(first: bool, a: Share, b: Share) -> Share
    ensures { result ≡ (if first then a else b) }
{
    if first { a } else { b }
}

/// So many nodes of the lane are taken.
pub fn set_nodes(shares: &mut [Share; SHARES], lane: u32, taken: u32)
    requires { lane < LANES }
    ensures size { length shares.old ≡ SHARES }
    ensures shares { shares.new
        ≡ with_share shares.old lane (record (share_at shares.old lane) { nodes_taken = taken }) }
{
    shares[lane as usize].nodes_taken = taken;
}

/// So many of its attempts are begun.
pub fn set_tries(shares: &mut [Share; SHARES], lane: u32, taken: u32)
    requires { lane < LANES }
    ensures size { length shares.old ≡ SHARES }
    ensures shares { shares.new
        ≡ with_share shares.old lane (record (share_at shares.old lane) { tries_taken = taken }) }
{
    shares[lane as usize].tries_taken = taken;
}

/// A slot of the lane's descriptor was installed.
pub fn count_slot(shares: &mut [Share; SHARES], to: Spot)
    requires { (to.desc < LANES) × (to.slot < SET) }
    ensures size { length shares.old ≡ SHARES }
    ensures shares { shares.new ≡ after_slot shares.old to }
{
    let share = &mut shares[to.desc as usize];
    share.slots_written = share.slots_written.max(to.slot + 1);
}

/// The lane's attempt was put in hand.
pub fn begin_lane(shares: &mut [Share; SHARES], lane: u32)
    requires { lane < LANES }
    ensures size { length shares.old ≡ SHARES }
    ensures shares { shares.new ≡ after_begin shares.old lane }
{
    shares[lane as usize].left_open = true;
}

/// It was answered or stopped.
pub fn end_lane(shares: &mut [Share; SHARES], lane: u32)
    requires { lane < LANES }
    ensures size { length shares.old ≡ SHARES }
    ensures shares { shares.new ≡ after_end shares.old lane }
{
    shares[lane as usize].left_open = false;
}

/// The lane's descriptor began another attempt.
pub fn restart_lane(shares: &mut [Share; SHARES], lane: u32)
    requires { lane < LANES }
    ensures size { length shares.old ≡ SHARES }
    ensures shares { shares.new ≡ after_restart shares.old lane }
{
    let share = &mut shares[lane as usize];
    share.slots_written = 0;
    share.left_open = false;
}
