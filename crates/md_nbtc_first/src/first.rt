//! How far counts rise in the first attempt of a field.

ghost use Rattle.md_nbtc_first.specs.First.{FirstAttemptsStayLow};

use md_machine::Theory;

/// Its clause states a law of fields whose opening has nothing to tidy: the first attempt meets no
/// count that is more than 4 above that of the opening. The call does nothing when it runs.
pub fn first_attempts_stay_low<T: Theory>()
    ensures { FirstAttemptsStayLow T.meaning }
{}
