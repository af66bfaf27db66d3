//! A gate that watches its calls.

use md_many::Gate;
use std::cell::Cell;
use std::sync::atomic::{AtomicU64, Ordering};

// A gate that counts its calls, and sees whether they are right: each names the caller's next line,
// and comes before an attempt, or after the one that committed the line.
#[derive(Drop)]
pub(crate) struct Counting<'a> {
    attempts: &'a AtomicU64,
    caller: u32,
    pub(crate) before: Cell<u64>,
    pub(crate) after: Cell<u64>,
    pub(crate) right: Cell<bool>,
}

impl<'a> Counting<'a> {
    // A gate of a caller, which knows of these attempts.
    pub(crate) fn new(attempts: &'a AtomicU64, caller: u32) -> Counting<'a> {
        Counting {
            attempts,
            caller,
            before: Cell::new(0),
            after: Cell::new(0),
            right: Cell::new(true),
        }
    }

    // Sees whether the caller's next line is named, when so many attempts were made as are known
    // of.
    fn see(&self, caller: u32, line: u32) {
        let named = caller == self.caller && line as u64 == self.after.get().saturating_add(1);
        let timely = self.attempts.load(Ordering::SeqCst) == self.before.get();
        self.right.set(self.right.get() && named && timely);
    }
}

impl<'a> Gate for Counting<'a> {
    ghost before_called = { λ gate caller line. Unit {0} };

    ghost after_called = { λ gate caller line. Unit {0} };

    fn before(&self, caller: u32, line: u32) {
        self.see(caller, line);
        self.before.set(self.before.get().saturating_add(1));
    }

    fn after(&self, caller: u32, line: u32) {
        self.see(caller, line);
        self.after.set(self.after.get().saturating_add(1));
    }
}
