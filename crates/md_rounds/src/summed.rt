//! That the summary of what was played adds up.

ghost use Rattle.md_rounds.specs.Summed.{SummariesAddUp};

use md_book::days_add_up;

/// Its clause states a law: in the summary of scripts that were played, what was placed is what was
/// cancelled, was filled and is open. `run_all` ensures that its scripts were played. It does nothing
/// when it runs.
pub fn summaries_add_up()
    ensures { SummariesAddUp }
{
    days_add_up();
}
