//! The limits in one place, as numbers.

ghost use Rattle.md_rounds.specs.Limits.{LimitsOfWords, LimitsOfBooks, SetHoldsCommands};

/// Its clauses state each limit of fields and of books as a number, and that a transaction's sets
/// hold all that a command reads and writes. All other code and contracts use the names of the
/// limits. It does nothing when it runs.
pub fn limits_hold()
    ensures words { LimitsOfWords }
    ensures books { LimitsOfBooks }
    ensures set { SetHoldsCommands }
{}
