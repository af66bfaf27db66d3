//! What is called around attempts.

ghost use Rattle.std.specs.Prelude.{ℕ};

/// What is called around each attempt at a line, in the thread that makes the attempt. No contract
/// says what it does. Only its two calls give its two facts. So if a function over any gate
/// promises a fact, it has made the call.
pub trait Gate {
    /// `before` was called for a caller's line.
    ghost before_called: { Self → ℕ → ℕ → Type 0 };

    /// `after` was called for a caller's line.
    ghost after_called: { Self → ℕ → ℕ → Type 0 };

    /// Called before each attempt at a caller's line.
    fn before(&self, caller: u32, line: u32)
        ensures { before_called self.now caller line };

    /// Called after the attempt that committed the line.
    fn after(&self, caller: u32, line: u32)
        requires { before_called self.now caller line }
        ensures { after_called self.now caller line };
}

/// A gate that does nothing.
#[derive(Clone, Copy, Debug)]
pub struct FreeGate;

impl Gate for FreeGate {
    ghost before_called = { λ gate caller line. Unit {0} };

    ghost after_called = { λ gate caller line. Unit {0} };

    fn before(&self, caller: u32, line: u32) {
        let _ = (caller, line);
    }

    fn after(&self, caller: u32, line: u32) {
        let _ = (caller, line);
    }
}
