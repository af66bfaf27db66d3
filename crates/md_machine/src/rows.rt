//! Placed nodes, and events that are refused: what the definitions say in single cases.

ghost use Rattle.md_machine.specs.Refused.{AlwaysMeansEvery, NeverMeansNone, PublishedNodeRefused};
ghost use Rattle.md_machine.specs.Refused.{OtherSlotRefused, EarlierValueRefused, NamedNodeRefused};

use crate::theory::Theory;

/// A node counts as placed in every resolution, or in none, exactly where that is so.
pub fn placed_laws()
    ensures always { AlwaysMeansEvery }
    ensures never { NeverMeansNone }
{}

/// What no event does: a store to a placed node, an install at another's slot, an uninstall with a
/// value that the slot had before. And no node is free to be given back that an attempt names which
/// may still commit.
pub fn refused_events<T: Theory>()
    ensures published { PublishedNodeRefused T.meaning }
    ensures other { OtherSlotRefused T.meaning }
    ensures earlier { EarlierValueRefused }
    ensures named { NamedNodeRefused T.meaning }
{}
