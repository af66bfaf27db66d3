//! Worked schedules of two passes, each of which holds one lane.

ghost use Rattle.md_machine_schedules.specs.Clearing.{ClearingRow};
ghost use Rattle.md_machine_schedules.specs.Schedules.{WorkedRows};
ghost use Rattle.md_machine_schedules.specs.Unlinking.{UnlinkingRow};

use md_machine::Theory;

/// A descriptor is installed in a word, and another pass aborts it and takes it out.
pub fn clearing_row<T: Theory>()
    ensures { ClearingRow T.meaning }
{}

/// Three schedules of two transactions: an insert that is aborted before it is ready, one that
/// stalls when it is ready and is committed by another pass, and a get that is overtaken and
/// aborted.
pub fn worked_rows<T: Theory>()
    ensures { WorkedRows T.meaning }
{}

/// A key is found, removed by another transaction, and its node unlinked by the one that found it:
/// that one is certified, becomes ready unsound, and is aborted. In one heap its certificates don't
/// stand.
pub fn unlinking_row<T: Theory>()
    ensures { UnlinkingRow T.meaning }
{}
