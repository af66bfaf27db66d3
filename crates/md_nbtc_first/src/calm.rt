//! How far counts rise in a field in which no transaction became ready.

ghost use Rattle.md_nbtc_first.specs.Calm.{AlwaysLow};

use md_machine::Theory;

/// Its clause states a law of fields whose opening has nothing to tidy. As long as no transaction
/// became ready, each count rises by at most twice the number of stores and installs of the pass
/// that has always held all lanes. The call does nothing when it runs.
pub fn calm_fields_stay_low<T: Theory>()
    ensures { AlwaysLow T.meaning }
{}
