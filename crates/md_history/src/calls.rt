//! The calls that a transaction offers.

ghost use Rattle.std.specs.Prelude.{◌≡◌, ◌<◌, ℕ, List, Option, IfOk, IfErr};
ghost use Rattle.md_history.specs.declared.acts.Act.{Act};
ghost use Rattle.md_history.specs.declared.acts.Op.TheVariants.{Get, Insert, Remove, Put, Enqueue};
ghost use Rattle.md_history.specs.declared.acts.Op.TheVariants.{Dequeue, Front};
ghost use Rattle.md_history.specs.declared.acts.Reply.TheVariants.{Value, Flag, Nothing};
ghost use Rattle.md_history.specs.Calls.{Refusal, Answered, Refused, IsLineLength};

use crate::acts::{Line, Op, Reply};
use crate::stops::Stop;

/// A transaction under way.
///
/// A call that returns `Ok` adds one act, its own operation with its reply. A call that returns
/// `Err` adds none, and the transaction has stopped: from then on each call returns the same stop
/// and does nothing. Each call needs its map or queue to exist.
pub trait TxCalls {
    /// The acts so far.
    ghost acts: { Self → List Act };

    /// Why the transaction stopped, with the operation that was refused first; `None` while it goes
    /// on.
    ghost stop: { Self → Option Refusal };

    /// What no call changes. The numbers of maps and queues are part of it.
    ghost Kept: { Type 0 };

    ghost kept: { Self → Kept };

    ghost maps: { Kept → ℕ };

    ghost queues: { Kept → ℕ };

    /// The value of a key, or `None` if the key is absent.
    fn get(&mut self, map: u32, key: u64) -> Result<Option<u64>, Stop>
        requires { map < maps (kept self.old) }
        ensures ok { IfOk result (λ v. Answered (Get map key) (Value v)
            (acts self.old) (acts self.new) (stop self.old) (stop self.new)) }
        ensures err { IfErr result (λ e. Refused (Get map key) e
            (acts self.old) (acts self.new) (stop self.old) (stop self.new)) }
        ensures kept { kept self.new ≡ kept self.old };

    /// Adds a key with its value if the key is absent, and returns whether it was. It never
    /// replaces a value.
    fn insert(&mut self, map: u32, key: u64, value: u64) -> Result<bool, Stop>
        requires { map < maps (kept self.old) }
        ensures ok { IfOk result (λ b. Answered (Insert map key value) (Flag b)
            (acts self.old) (acts self.new) (stop self.old) (stop self.new)) }
        ensures err { IfErr result (λ e. Refused (Insert map key value) e
            (acts self.old) (acts self.new) (stop self.old) (stop self.new)) }
        ensures kept { kept self.new ≡ kept self.old };

    /// Removes a key, and returns the value that it had, or `None` if the key was absent.
    fn remove(&mut self, map: u32, key: u64) -> Result<Option<u64>, Stop>
        requires { map < maps (kept self.old) }
        ensures ok { IfOk result (λ v. Answered (Remove map key) (Value v)
            (acts self.old) (acts self.new) (stop self.old) (stop self.new)) }
        ensures err { IfErr result (λ e. Refused (Remove map key) e
            (acts self.old) (acts self.new) (stop self.old) (stop self.new)) }
        ensures kept { kept self.new ≡ kept self.old };

    /// Sets a key's value, and returns the one that it had, or `None` if the key was absent.
    fn put(&mut self, map: u32, key: u64, value: u64) -> Result<Option<u64>, Stop>
        requires { map < maps (kept self.old) }
        ensures ok { IfOk result (λ v. Answered (Put map key value) (Value v)
            (acts self.old) (acts self.new) (stop self.old) (stop self.new)) }
        ensures err { IfErr result (λ e. Refused (Put map key value) e
            (acts self.old) (acts self.new) (stop self.old) (stop self.new)) }
        ensures kept { kept self.new ≡ kept self.old };

    /// Appends a value to a queue.
    fn enqueue(&mut self, queue: u32, value: u64) -> Result<(), Stop>
        requires { queue < queues (kept self.old) }
        ensures ok { IfOk result (λ _. Answered (Enqueue queue value) Nothing
            (acts self.old) (acts self.new) (stop self.old) (stop self.new)) }
        ensures err { IfErr result (λ e. Refused (Enqueue queue value) e
            (acts self.old) (acts self.new) (stop self.old) (stop self.new)) }
        ensures kept { kept self.new ≡ kept self.old };

    /// Removes the first value of a queue, and returns it, or `None` if the queue is empty.
    fn dequeue(&mut self, queue: u32) -> Result<Option<u64>, Stop>
        requires { queue < queues (kept self.old) }
        ensures ok { IfOk result (λ v. Answered (Dequeue queue) (Value v)
            (acts self.old) (acts self.new) (stop self.old) (stop self.new)) }
        ensures err { IfErr result (λ e. Refused (Dequeue queue) e
            (acts self.old) (acts self.new) (stop self.old) (stop self.new)) }
        ensures kept { kept self.new ≡ kept self.old };

    /// The first value of a queue, or `None` if the queue is empty.
    fn front(&mut self, queue: u32) -> Result<Option<u64>, Stop>
        requires { queue < queues (kept self.old) }
        ensures ok { IfOk result (λ v. Answered (Front queue) (Value v)
            (acts self.old) (acts self.new) (stop self.old) (stop self.new)) }
        ensures err { IfErr result (λ e. Refused (Front queue) e
            (acts self.old) (acts self.new) (stop self.old) (stop self.new)) }
        ensures kept { kept self.new ≡ kept self.old };

    /// The first `n` values of a queue, or all if there are fewer. `n` is from 1 to [`MAX_LINE`].
    fn line(&mut self, queue: u32, n: u8) -> Result<Line, Stop>
        requires queue { queue < queues (kept self.old) }
        requires n { IsLineLength n }
        ensures ok { IfOk result (λ l. Answered (Op.Line queue n) (Reply.Line l)
            (acts self.old) (acts self.new) (stop self.old) (stop self.new)) }
        ensures err { IfErr result (λ e. Refused (Op.Line queue n) e
            (acts self.old) (acts self.new) (stop self.old) (stop self.new)) }
        ensures kept { kept self.new ≡ kept self.old };
}
