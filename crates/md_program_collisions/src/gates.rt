//! Gates at which callers wait for one another.

use md_many::Gate;
use std::alloc::{AllocError, Global};
use std::sync::atomic::{AtomicBool, Ordering};

/// A gate at which callers wait for one another before the first lines that they play side by side,
/// so that their lines overlap. Caller 1 waits before its second line, because its first one is
/// played alone. Each other caller waits before its first line. A caller looks at most `turns`
/// times whether all came, and then goes on.
#[derive(Drop)]
pub struct Meeting {
    here: [AtomicBool; 4],
    callers: u32,
    turns: u32,
}

impl Meeting {
    /// The gate of callers 1 to `callers`. With more than 4 callers it is never full.
    pub fn of(callers: u32, turns: u32) -> Meeting {
        Meeting {
            here: [
                AtomicBool::new(false),
                AtomicBool::new(false),
                AtomicBool::new(false),
                AtomicBool::new(false),
            ],
            callers,
            turns,
        }
    }

    /// Whether all callers came.
    pub fn is_full(&self) -> bool {
        for (before, here) in self.here.iter().enumerate() {
            if before < self.callers as usize && !here.load(Ordering::SeqCst) {
                return false;
            }
        }
        true
    }
}

impl Gate for Meeting {
    ghost before_called = { λ gate caller line. Unit {0} };

    ghost after_called = { λ gate caller line. Unit {0} };

    fn before(&self, caller: u32, line: u32) {
        let first = if caller == 1 { 2 } else { 1 };
        if line != first {
            return;
        }
        if let Some(here) = self.here.get((caller as usize).saturating_sub(1)) {
            here.store(true, Ordering::SeqCst);
        }
        for _ in 0..self.turns {
            if self.is_full() {
                break;
            }
        }
    }

    fn after(&self, caller: u32, line: u32) {
        let _ = (caller, line);
    }
}

/// A gate at which each caller waits, before its second line, until all others have come to their
/// second lines too. So if a caller meets all others, each of them had played its first line before
/// this caller played its second. A caller looks at most `turns` times for each of the others, and
/// gives up at the first that doesn't come.
#[derive(Drop)]
pub struct Crossing {
    flags: Vec<Flag>,
    turns: u32,
}

// Whether a caller came to its second line, and whether it met all others there.
#[derive(Drop)]
struct Flag {
    here: AtomicBool,
    met: AtomicBool,
}

impl Flag {
    fn down() -> Flag {
        Flag {
            here: AtomicBool::new(false),
            met: AtomicBool::new(false),
        }
    }

    // Whether its caller comes within so many looks.
    fn comes_within(&self, turns: u32) -> bool {
        for _ in 0..turns {
            if self.here.load(Ordering::SeqCst) {
                return true;
            }
        }
        false
    }
}

impl Crossing {
    /// The gate of callers 1 to `callers`. `AllocError` if memory runs out.
    pub fn of(alloc: Global, callers: u32, turns: u32) -> Result<Crossing, AllocError> {
        let mut flags = Vec::with_capacity(alloc, callers as usize)?;
        for _ in 0..callers {
            flags.push(Flag::down())?;
        }
        Ok(Crossing { flags, turns })
    }

    /// How many callers met all others.
    pub fn met(&self) -> u32 {
        let mut met = 0u32;
        for flag in &self.flags {
            if flag.met.load(Ordering::SeqCst) {
                met = met.saturating_add(1);
            }
        }
        met
    }

    // Whether all callers come.
    fn all_come(&self) -> bool {
        for flag in &self.flags {
            if !flag.comes_within(self.turns) {
                return false;
            }
        }
        true
    }
}

impl Gate for Crossing {
    ghost before_called = { λ gate caller line. Unit {0} };

    ghost after_called = { λ gate caller line. Unit {0} };

    fn before(&self, caller: u32, line: u32) {
        if line != 2 {
            return;
        }
        if let Some(flag) = self.flags.get((caller as usize).saturating_sub(1)) {
            flag.here.store(true, Ordering::SeqCst);
            if self.all_come() {
                flag.met.store(true, Ordering::SeqCst);
            }
        }
    }

    fn after(&self, caller: u32, line: u32) {
        let _ = (caller, line);
    }
}
