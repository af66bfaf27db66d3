//! No node is given twice.

ghost use Rattle.md_arena.specs.Twice.{NoNodeTwice, NoNodeOfTwo};

/// A node that a pass took isn't taken again until it was given back, whatever passes become of
/// those of the field by splits and joins. No two passes of a field take the same node, since no
/// lane is held by both.
pub fn no_node_twice()
    ensures course { NoNodeTwice }
    ensures two { NoNodeOfTwo }
{}
