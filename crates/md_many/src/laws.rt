//! Lines and bodies of which it is known what they leave.

ghost use Rattle.std.specs.Prelude.{ℕ, List};
ghost use Rattle.md_history.specs.State.{State};
ghost use Rattle.md_history.specs.Counts.{Bounds};

use md_history::Body;
use md_many_attempts::Lines;

/// Lines, with the words in which their laws are stated. The laws (`AreLawful`) say that the lines
/// leave good states, in whatever order they are played. The calls that play the lines require
/// them.
pub trait LawfulLines: Lines {
    /// The state from which they are played.
    ghost opening: { Self → State };

    /// The states that they can leave, by the tags of the lines that were played.
    ghost good: { Self → State → List ℕ → Type 0 };

    /// The replies that a caller's line can have.
    ghost suits: { Self → ℕ → ℕ → Self.B.Reply → Type 0 };

    /// The most words that a line can read and write, and the most nodes that it can take.
    ghost cost: { Self → Bounds };

    /// How many nodes the contents of a good state need at most.
    ghost most: { Self → ℕ };
}

/// A body, with the words in which the laws of such bodies are stated. The laws
/// (`AreLawfulBodies`) say that each body leaves good states good, whichever bodies came before.
/// `run_lines` requires them.
pub trait LawfulBody: Body {
    /// The states that bodies can leave, by the state at the opening.
    ghost good: { State → State → Type 0 };

    /// The most words that a body can read and write, and the most nodes that it can take.
    ghost cost: { Bounds };

    /// How many nodes more the contents need after a body, at most.
    ghost growth: { ℕ };
}
