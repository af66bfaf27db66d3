//! The transactions of a thread, made up by a generator.

ghost use Rattle.std.specs.Prelude.{◌≤◌};
ghost use Rattle.medley_bench.specs.declared.draws.TheConstants.{MOST};

/// An operation on the map. An insert inserts the key as its own value.
#[derive(Clone, Copy, Drop)]
pub(crate) enum Call {
    Get(u64),
    Insert(u64),
    Remove(u64),
}

/// The most calls of a transaction.
pub(crate) const MOST: usize = 10;

/// The first `count` of these calls, as a transaction. It replies how many of them found or changed
/// something.
#[derive(Clone, Copy, Drop)]
pub(crate) struct Burst {
    pub count: usize,
    pub calls: [Call; MOST],
    ghost few: { count ≤ MOST },
}

/// Keys are below this number.
pub(crate) const KEYS: u64 = 1_000_000;

/// Pseudo-random numbers: SplitMix64 (Steele, Lea and Flood, 2014).
#[derive(Clone, Copy, Drop)]
pub(crate) struct Draws {
    state: u64,
}

/// The mixed bits of a number.
pub(crate) fn mixed(number: u64) -> u64 {
    let mut z = number;
    z = (z ^ (z >> 30)).wrapping_mul(0xbf58_476d_1ce4_e5b9);
    z = (z ^ (z >> 27)).wrapping_mul(0x94d0_49bb_1331_11eb);
    z ^ (z >> 31)
}

impl Draws {
    /// Those of a thread.
    pub(crate) fn of(thread: u32) -> Draws {
        Draws {
            state: mixed(u64::from(thread) + 1),
        }
    }

    #[inline]
    fn next(&mut self) -> u64 {
        self.state = self.state.wrapping_add(0x9e37_79b9_7f4a_7c15);
        mixed(self.state)
    }

    #[inline]
    fn call(&mut self, gets: u32) -> Call {
        let draw = self.next();
        let key = (draw >> 32).wrapping_mul(KEYS) >> 32;
        let kind = (draw & 0xffff_ffff).wrapping_mul(u64::from(gets) + 2) >> 32;
        if kind < u64::from(gets) {
            Call::Get(key)
        } else if kind == u64::from(gets) {
            Call::Insert(key)
        } else {
            Call::Remove(key)
        }
    }

    /// The next transaction: 1 to `MOST` calls, of which of `gets + 2` so many are a get, one an
    /// insert and one a remove.
    pub(crate) fn burst(&mut self, gets: u32) -> Burst {
        let drawn = ((self.next() >> 32).wrapping_mul(MOST as u64) >> 32) as usize;
        let count = 1 + drawn % MOST;
        let mut calls = [Call::Get(0); MOST];
        for i in 0..count {
            calls[i] = self.call(gets);
        }
        Burst { count, calls }
    }
}
