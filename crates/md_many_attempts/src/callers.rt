//! What callers have to do.

ghost use Rattle.std.specs.Prelude.{◌≡◌, ◌<◌, ◌≤◌, ◌⊎◌, ◌↔◌, ℕ, Option, IsSome};

use md_history::Body;

/// The lines of some callers: bodies, each to be run once, those of each caller in order. Callers
/// and lines are counted from 1. `body` is called for each attempt, by several threads at a time.
pub trait Lines: Sync {
    /// The body that a line is.
    type B: Body + Drop;

    /// How many callers there are.
    ghost caller_count: { Self → ℕ };

    /// How many lines a caller has.
    ghost line_count: { Self → ℕ → ℕ };

    /// The body of a caller's line.
    ghost body_at: { Self → ℕ → ℕ → Option Self.B };

    /// The number of callers.
    fn callers(&self) -> u32
        ensures { result ≡ caller_count self.now };

    /// The number of a caller's lines. It is 0 if there is no such caller.
    fn len(&self, caller: u32) -> u32
        ensures { result ≡ line_count self.now caller };

    /// The body of a caller's line. `None` exactly if there is no such line.
    fn body(&self, caller: u32, line: u32) -> Option<Self::B>
        ensures { result ≡ body_at self.now caller line };

    /// There is a body for each line, and for nothing else.
    ghost has_body: { (l : Self) (caller line : ℕ) → IsSome (body_at l caller line)
        ↔ ((1 ≤ line) × (line ≤ line_count l caller)) };

    /// Lines are those of the callers.
    ghost has_caller: { (l : Self) (caller : ℕ) → (caller ≡ 0) ⊎ (caller_count l < caller)
        → line_count l caller ≡ 0 };
}
