//! Theories that contain the lists of a hash table, and what a walk along a list shows in each.

ghost use Rattle.md_list_law.specs.Gaps.{KeysRise, GapShowsAbsent, NodeShowsPresent};
ghost use Rattle.md_list_law.specs.Rising.{RisesAtFirst, RisesAlong, RisesTidied};

use md_machine::Theory;

/// A theory in whose valid heaps every bucket is a list, which has the certificates and the
/// unlinks of each, and none that lets the keys of a bucket fall along its links.
pub trait HasLists: Theory {
    ghost use Rattle.md_list_law.specs.HasLists.{HasListsOf};

    ghost has_lists: { HasListsOf Self.meaning };
}

/// It does nothing: its contract is what a walk along a bucket shows. Keys rise along next words,
/// though a marked one may name a node with the same key. A gap between keys shows that a key is
/// absent. A node with an unmarked next word shows that its key is present. And keys rise along
/// what a transaction sees of a bucket, its own slots and its own new nodes among it, even if it
/// can no longer commit: so its walk ends.
pub fn list_facts<T: HasLists>()
    ensures rises { KeysRise T.meaning }
    ensures absent { GapShowsAbsent T.meaning }
    ensures present { NodeShowsPresent T.meaning }
    ensures at_first { RisesAtFirst T.meaning }
    ensures along { RisesAlong T.meaning }
    ensures tidied { RisesTidied T.meaning }
{}
