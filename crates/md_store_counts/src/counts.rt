//! The bounds on words and nodes by the counts of acts.

ghost use Rattle.md_store_counts.specs.Few.{PlacedAreCounted, RecordedAreFew, TidiedAreFew, WrittenAreFew};
ghost use Rattle.md_store_counts.specs.Rows.{WorkedCounts, WorkedExcess};

/// Its clauses state laws of certificates that stand one after another from a valid heap of a
/// store: they name no more words and nodes than the counts of their acts allow. `tidied` also
/// covers the tidy changes of an operation that was begun, and has no certificate yet. The call
/// does nothing when it runs.
pub fn certificates_are_few()
    ensures placed { PlacedAreCounted }
    ensures recorded { RecordedAreFew }
    ensures written { WrittenAreFew }
    ensures tidied { TidiedAreFew }
{}

/// Its clauses state examples. `few` has certificates for which the laws hold, with the words that
/// they name and the counts of their acts. `excess` has certificates with tidy changes that aren't
/// charged: they change more words than the counts of their acts. The call does nothing when it
/// runs.
pub fn worked_counts()
    ensures few { WorkedCounts }
    ensures excess { WorkedExcess }
{}
