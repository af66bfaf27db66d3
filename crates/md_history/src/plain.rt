//! A store for one thread.

ghost use Rattle.std.specs.Prelude.{◌≡◌, [], None, true, false};
ghost use Rattle.md_history.specs.Front.{replay_of};
ghost use Rattle.md_history.specs.Plain.{front_of, IsPassOf};

use crate::acts::Acts;
use crate::contents::Contents;
use crate::entries::Entry;
use crate::plain_tx::PlainTx;
use std::marker::Model;
use std::mem;
use std::snapshot::Snapshot;

/// The pass of a store for one thread. It holds the one lane, the contents and the history.
#[derive(Drop)]
pub struct PlainPass {
    pub(crate) start: Snapshot<Contents>,
    pub(crate) contents: Contents,
    pub(crate) entries: Vec<Entry>,
    pub(crate) broken: bool,
}

impl Model for PlainPass {
    ghost use Rattle.md_history.specs.Plain.{Plain, IsKept};

    ghost Value = { Plain };

    ghost use Rattle.std.specs.Coded.{codes};
    ghost use Rattle.md_history.specs.State.{table_code};

    ghost coded = { Prim.hlevel (codes, table_code) };

    ghost view = { λ p.
        record { start = p.start.value; entries = p.entries.items; broken = p.broken } };

    ghost invariant = { λ p. IsKept p.start.value p.contents p.entries.items p.broken };
}

impl PlainPass {
    /// The entries of the history, in order. Each is committed. It takes no memory.
    pub fn entries(&self) -> &[Entry]
        ensures { result.now ≡ (front_of self.now).seen }
    {
        &self.entries
    }
}

/// A store for one thread. Contracts see the state that it began with.
///
/// Its attempts never stop for a conflict or a limit. They don't undo: once one ran out of memory,
/// each later one stops with `NoMemory` too, and the contents are lost. An attempt costs what its
/// body's calls cost on `Contents`, and keeps its acts in the history.
///
/// A store has nothing of its own but the state that it began with. So a pass of another store that
/// began with equal contents counts as one of its passes.
#[derive(Drop)]
pub struct PlainStore {
    start: Snapshot<Contents>,
}

impl Model for PlainStore {
    ghost use Rattle.md_history.specs.State.{State, state_code};

    ghost Value = { State };

    ghost coded = { state_code };

    ghost view = { λ s. s.start.value };
}

// An attempt under way: the contents are moved out of the pass, which is broken until they are
// back.
pub(crate) fn begin(pass: &mut PlainPass) -> PlainTx
    requires { pass.old.broken ≡ false }
    ensures tx { result ≡ record {
      start = replay_of pass.old.start (front_of pass.old);
      acts = [];
      refused = None;
    } }
    ensures pass { pass.new ≡ record pass.old { broken = true } }
{
    pass.broken = true;
    let none = pass.contents.none();
    let contents = mem::replace(&mut pass.contents, none);
    let alloc = contents.alloc();
    PlainTx {
        start: Snapshot::of(&contents),
        contents,
        acts: Acts::new(alloc),
        refused: None,
    }
}

impl PlainStore {
    /// Opens a store on contents, with its one pass, which is fresh. It takes no memory.
    pub fn open(start: Contents) -> (PlainStore, PlainPass)
        ensures store { result.0 ≡ start }
        ensures pass { result.1 ≡ record { start = start; entries = []; broken = false } }
        ensures of { IsPassOf result.0 result.1 }
    {
        let alloc = start.alloc();
        let store = PlainStore {
            start: Snapshot::of(&start),
        };
        let pass = PlainPass {
            start: Snapshot::of(&start),
            contents: start,
            entries: Vec::new(alloc),
            broken: false,
        };
        (store, pass)
    }
}
