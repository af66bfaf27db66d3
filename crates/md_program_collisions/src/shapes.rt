//! The shape of a store whose maps have one bucket each.

ghost use Rattle.std.specs.Prelude.{◌≡◌, ◌≤◌};
ghost use Rattle.md_words.specs.Layout.{HasNumbers};

use md_book::{LEVELS, MAPS};
use md_words::Shape;

// How many nodes a lane has.
const NODES: u32 = 64;

/// The shape of a store for order commands in which each map has one bucket, with a lane of 64 nodes
/// and `tries` attempts, at least 1, for each of 1 to 64 callers.
pub fn narrow_shape(callers: u32, tries: u32) -> Shape
    requires callers { (1 ≤ callers) × (callers ≤ 64) }
    requires tries { 1 ≤ tries }
    ensures { HasNumbers result callers NODES LEVELS tries MAPS 1 LEVELS }
{
    Shape::new(callers, NODES, LEVELS, tries, MAPS, 1, LEVELS).unwrap()
}
