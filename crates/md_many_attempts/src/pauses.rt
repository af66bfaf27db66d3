//! Conflicts in a row, and the pauses after them.

ghost use Rattle.std.specs.Prelude.{◌≡◌};

use md_history::Shown;
use std::hint::spin_loop;

// A pause is shorter than this power of 2, in turns of the spin hint.
const LONGEST: u32 = 12;

/// How many conflicts in a row a caller has met, and the random state of its pauses.
#[derive(Clone, Copy)]
pub(crate) struct Streak {
    pub(crate) conflicts: u32,
    pub(crate) random: u64,
}

impl Streak {
    /// No conflict yet, with a random state of any number.
    pub(crate) fn new(random: u64) -> Streak
        ensures { result.conflicts ≡ 0 }
    {
        Streak {
            conflicts: 0,
            random,
        }
    }
}

/// Pauses for a random number of turns of the spin hint, which is below 2^conflicts and below
/// 4,096. It waits for nobody, and returns the next random state. The states are those of a
/// xorshift generator (Marsaglia, 2003), each mixed with what the last conflict showed. So two
/// callers that begin with one state, even with 0, soon pause differently.
pub(crate) fn pause(random: u64, conflicts: u32, shown: Shown) -> u64 {
    let mut next = random ^ shown.now ^ (u64::from(shown.word) << 32);
    next ^= next << 13;
    next ^= next >> 7;
    next ^= next << 17;
    for _ in 0..next % (1 << conflicts.min(LONGEST)) {
        spin_loop();
    }
    next
}
