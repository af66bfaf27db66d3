//! Who keeps the replies of lines.

ghost use Rattle.std.specs.Prelude.{◌≡◌, ◌≢◌, ◌+◌, ◌^◌, ◌<◌, ◌++◌, ℕ, List, length, OnOk};
ghost use Rattle.md_many.specs.Laws.{AllSuit};

use md_many_attempts::ReplyList;
use std::alloc::AllocError;

/// Keeps the replies of callers' lines. In each round `play_open_rounds` hands over the reply of
/// the first line, and then those of the turns, caller by caller. Each caller's come in order. A list
/// may be empty.
pub trait Keeper<R> {
    /// The lists of replies that it takes.
    type List: ReplyList<R>;

    /// It can keep this reply of a caller's line.
    ghost can_keep: { Self → ℕ → ℕ → R → Type 0 };

    /// It keeps these replies of a caller's first lines.
    ghost keeps: { Self → ℕ → List R → Type 0 };

    /// Keeps the replies of a caller's lines after its first `done`. The keeper can keep each of
    /// them, and the lines are numbered below 2^32. `AllocError` if memory runs out.
    fn keep(&mut self, caller: u32, done: u32, replies: Self::List) -> Result<(), AllocError>
        requires suit { AllSuit (can_keep self.old caller) done (Self.List.listed replies) }
        requires few { done + length (Self.List.listed replies) < 2 ^ 32 }
        ensures can_keep { (other line : ℕ) (r : R) → can_keep self.old other line r
            → can_keep self.new other line r }
        ensures kept { (rs : List R) → keeps self.old caller rs → length rs ≡ done
            → OnOk result (keeps self.new caller (rs ++ Self.List.listed replies)) }
        ensures others { (other : ℕ) (rs : List R) → other ≢ caller → keeps self.old other rs
            → OnOk result (keeps self.new other rs) };
}
