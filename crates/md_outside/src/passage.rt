//! The bytes that passed a stream, for contracts alone.

ghost use Rattle.std.specs.Prelude.{◌≡◌, ◌++◌, [], List, ℕ};
ghost use Rattle.std.specs.Borrow.{ftrue};

use std::marker::{Model, PhantomData};

/// The bytes that passed a stream so far. It takes no memory when the program runs; contracts see
/// the list.
#[derive(Drop)]
pub struct Passage {
    marker: PhantomData<u8>,
    pub ghost bytes: { List ℕ },
}

impl Model for Passage {
    ghost also_owns = { λ _. ftrue };
}

impl Passage {
    /// No byte passed yet.
    pub(crate) fn new() -> Passage
        ensures { result.bytes ≡ [] }
    {
        Passage {
            marker: PhantomData,
        }
    }

    /// These bytes passed behind those before them. When the program runs, it does nothing.
    pub(crate) fn add(&mut self, _part: &[u8])
        ensures { self.new.bytes ≡ self.old.bytes ++ _part.now }
    {}
}
