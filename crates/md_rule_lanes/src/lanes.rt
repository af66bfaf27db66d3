//! The lanes of a pass, as a bit set.

ghost use Rattle.std.specs.Prelude.{◌≡◌, ◌∷◌, ◌<◌, ◌≤◌, ◌↔◌, ℕ, IsTrue, length, slice_index, false};
ghost use Rattle.std.specs.List.{Contains, range_with_len};
ghost use Rattle.md_words.specs.declared.limits.TheConstants.{LANES};
ghost use Rattle.md_history.specs.Front.{is_lane_of};
ghost use Rattle.md_machine.specs.events.SplitJoin.{kept_lanes, given_lanes, joined_lanes};
ghost use Rattle.md_rule_lanes.specs.LaneSet.{lanes_in};

use md_words::{LANES, Shape};
use std::marker::Model;

/// A set of lanes, with a bit for each of the `LANES` that a shape may have. Clauses see them in
/// rising order.
#[derive(Drop)]
pub struct Lanes {
    bits: u64,
}

impl Model for Lanes {
    ghost use Rattle.std.specs.Prelude.{ℕ, List};

    ghost Value = { List ℕ };

    ghost use Rattle.md_rule_lanes.specs.LaneSet.{lanes_in};

    ghost view = { λ l. lanes_in l.bits };

    ghost use Rattle.std.specs.Prelude.{◌<◌, ◌^◌};

    ghost invariant = { λ l. l.bits < 2 ^ 64 };
}

impl Lanes {
    /// The lanes below a number.
    pub fn all(count: u32) -> Lanes
        requires { (1 ≤ count) × (count ≤ LANES) }
        ensures { result ≡ range_with_len 0 count }
    {
        Lanes {
            bits: u64::MAX >> (LANES - count),
        }
    }

    /// How many there are.
    pub fn count(&self) -> u32
        ensures { result ≡ length self.now }
    {
        count(self.bits)
    }

    /// Whether there are two or more.
    pub fn are_several(&self) -> bool
        ensures { IsTrue result ↔ (2 ≤ length self.now) }
    {
        self.count() >= 2
    }

    /// The lane at a place.
    pub fn at(&self, place: u32) -> u32
        requires { place < length self.now }
        ensures lane { result ≡ slice_index self.now place }
        ensures below { result < LANES }
    {
        lane_at(self.bits, place)
    }

    /// Whether it has a lane.
    pub fn has(&self, lane: u32) -> bool
        requires { lane < LANES }
        ensures { result ≡ is_lane_of self.now lane }
    {
        self.bits >> lane & 1 == 1
    }

    /// Takes the last half out, that of fewer lanes.
    pub fn split(&mut self) -> Lanes
        requires { 2 ≤ length self.old }
        ensures kept { self.new ≡ kept_lanes self.old }
        ensures given { result ≡ given_lanes self.old }
    {
        let lanes = count(self.bits);
        let given = self.bits & u64::MAX << lane_at(self.bits, lanes - lanes / 2);
        self.bits ^= given;
        Lanes { bits: given }
    }

    /// Takes others in. All are below the number of the shape.
    pub fn join(&mut self, other: Lanes, shape: &Shape)
        requires mine { (lane : ℕ) → shape.now.lanes ≤ lane → is_lane_of self.old lane ≡ false }
        requires others { (lane : ℕ) → shape.now.lanes ≤ lane → is_lane_of other lane ≡ false }
        ensures { self.new ≡ joined_lanes shape.now self.old other }
    {
        self.bits |= other.bits;
    }
}

/// Whether they are all lanes of a shape.
pub fn has_all(lanes: &Lanes, shape: &Shape) -> bool
    ensures { IsTrue result ↔ ((lane : ℕ) → lane < shape.now.lanes → Contains lanes.now lane) }
{
    for lane in 0..shape.lanes {
        if !lanes.has(lane) {
            return false;
        }
    }
    true
}

// The bits without the lowest one.
fn without_lowest(bits: u64) -> u64
    requires { 0 < bits }
    ensures { lanes_in bits ≡ slice_index (lanes_in bits) 0 ∷ lanes_in result }
{
    bits & !(1u64 << bits.trailing_zeros())
}

fn count(bits: u64) -> u32
    ensures { result ≡ length (lanes_in bits) }
{
    let mut rest = bits;
    let mut count = 0;
    while rest != 0 {
        rest = without_lowest(rest);
        count += 1;
    }
    count
}

fn lane_at(bits: u64, place: u32) -> u32
    requires { place < length (lanes_in bits) }
    ensures lane { result ≡ slice_index (lanes_in bits) place }
    ensures below { result < LANES }
{
    let mut rest = bits;
    let mut left = place;
    while left > 0 {
        rest = without_lowest(rest);
        left -= 1;
    }
    rest.trailing_zeros()
}
