//! A pass as it stood, for contracts to speak of.

ghost use Rattle.std.specs.Prelude.{◌≡◌};

use std::marker::Model;
use std::snapshot::Snapshot;

/// A pass as it stood. It has no bytes when the program runs; contracts see the pass that it keeps.
#[derive(Drop)]
pub struct Front<P> {
    kept: Snapshot<P>,
}

impl<P> Model for Front<P> {
    ghost Value = { P };

    ghost coded = { P.code };

    ghost view = { λ f. f.kept.value };
}

impl<P> Front<P> {
    /// Keeps a pass as it stands. It takes no memory.
    pub fn of(pass: &P) -> Front<P>
        ensures { result ≡ pass.now }
    {
        Front {
            kept: Snapshot::of(pass),
        }
    }
}
