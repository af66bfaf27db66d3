//! Queues as a theory, and theories that contain queues.

ghost use Rattle.md_queue_law.specs.QueueFacts.{HeadNamesOne, TailNamesOne};
ghost use Rattle.md_queue_law.specs.QueueFacts.{RanksRise, LastAlone, RanksDiffer, RanksFit};
ghost use Rattle.md_queue_law.specs.QueueFacts.{LookGoesOn};
ghost use Rattle.md_queue_law.specs.Rising.{RanksRiseAtFirst, RanksRiseAlong, RanksRiseTidied};
ghost use Rattle.md_queue_law.specs.Rising.{SeenRanksFit};

use md_machine::Theory;

/// A theory that contains queues: in its valid heaps each queue has its shape and its values, it
/// has the certificates of queues and the moves of their tails, and none that breaks the rise of
/// ranks.
pub trait HasQueues: Theory {
    ghost use Rattle.md_queue_law.specs.QueueMeaning.{HasQueuesOf};

    ghost has_queues: { HasQueuesOf Self.meaning };
}

/// Queues alone, over fields of any shape. Its maps are empty, and no operation on them has a
/// certificate.
pub struct QueueTheory;

impl Theory for QueueTheory {
    ghost use Rattle.md_queue_law.specs.QueueMeaning.{queue_meaning};
    ghost use Rattle.md_queue_law.specs.Laws.QueueLaws.{queue_lawful};

    ghost meaning = { queue_meaning };

    ghost lawful = { queue_lawful };
}

impl HasQueues for QueueTheory {
    ghost use Rattle.md_queue_law.specs.Laws.QueueLaws.{queue_has_queues};

    ghost has_queues = { queue_has_queues };
}

/// What holds of a queue's nodes and words in every valid heap. And ranks rise by one along what a
/// transaction sees of a queue, its own slots and its own new nodes among it, even if it can no
/// longer commit: so its walk ends. It does nothing: its contract is the facts.
pub fn queue_facts<T: HasQueues>()
    ensures head { HeadNamesOne T.meaning }
    ensures tail { TailNamesOne T.meaning }
    ensures rise { RanksRise T.meaning }
    ensures last { LastAlone T.meaning }
    ensures differ { RanksDiffer T.meaning }
    ensures fit { RanksFit T.meaning }
    ensures look { LookGoesOn }
    ensures at_first { RanksRiseAtFirst T.meaning }
    ensures along { RanksRiseAlong T.meaning }
    ensures tidied { RanksRiseTidied T.meaning }
    ensures seen_fit { SeenRanksFit }
{}
