//! The store: a field of shared words that holds maps and queues.

ghost use Rattle.std.specs.Prelude.{◌≡◌, ◌≤◌, ◌<◌, Err, IfErr, IfOk};
ghost use Rattle.md_history.specs.Engine.{needed};
ghost use Rattle.md_store_bodies.specs.Store.{IsFresh, IsPassOf, start_of};
ghost use Rattle.md_store_law.specs.Laid.{HasMapsAndQueues};
ghost use Rattle.md_store_law.specs.Needed.{capped};
ghost use Rattle.md_store_law.specs.Untouched.{IsUntouched};

use crate::pass::StorePass;
use md_history::Contents;
use md_rule::Field;
use md_store_law::StoreTheory;
use md_store_layout::{lay, needed};
use md_words::Shape;
use std::alloc::{AllocError, Global};
use std::marker::Model;

/// Maps and queues in a field of shared words. Callers use it by passes.
#[derive(Drop)]
pub struct Store {
    pub(crate) field: Field<StoreTheory>,
    pub(crate) alloc: Global,
}

impl Model for Store {
    ghost use Rattle.md_rule.specs.Views.{FieldView};

    ghost Value = { FieldView };

    ghost view = { λ s. s.field };
}

/// Why a store can't be opened.
#[derive(Debug, PartialEq, Eq, Drop)]
pub enum OpenFault {
    /// The contents need more base nodes than the shape has.
    NoRoom { needed: u64, base: u32 },
    /// Memory ran out.
    NoMemory,
}

impl Store {
    /// Opens a store with these contents, and the pass that holds all lanes. The contents have as
    /// many maps and queues as the shape.
    ///
    /// `NoRoom` exactly if the contents need more nodes than the shape has base nodes: one for each
    /// queue, each pair of a map and each value in a queue. `NoMemory` if memory runs out.
    ///
    /// Takes time linear in the words and the contents.
    pub fn open(
        alloc: Global,
        shape: Shape,
        start: &Contents,
    ) -> Result<(Store, StorePass), OpenFault>
        requires { HasMapsAndQueues shape start.now }
        ensures shape { IfOk result (λ r. r.0.origin.shape ≡ shape) }
        ensures start { IfOk result (λ r. start_of r.0 ≡ start.now) }
        ensures of { IfOk result (λ r. IsPassOf r.0 r.1) }
        ensures fresh { IfOk result (λ r. IsFresh r.1) }
        ensures untouched { IfOk result
            (λ r. IsUntouched r.0.origin.shape r.0.origin.words) }
        ensures no_room { shape.base < needed start.now
            → result ≡ Err (OpenFault.NoRoom (capped (needed start.now)) shape.base) }
        ensures room { needed start.now ≤ shape.base
            → IfErr result (λ fault. fault ≡ OpenFault.NoMemory) }
    {
        let needed = needed(start);
        if needed > shape.base as u64 {
            return Err(OpenFault::NoRoom {
                needed,
                base: shape.base,
            });
        }
        match opened(alloc, shape, start) {
            Ok(both) => Ok(both),
            Err(_) => Err(OpenFault::NoMemory),
        }
    }

    /// The field, on which a pass of the store may begin transactions of its own.
    pub fn field(&self) -> &Field<StoreTheory>
        ensures { result.now ≡ self.now }
    {
        &self.field
    }
}

// Lays the contents out and opens the field.
fn opened(alloc: Global, shape: Shape, start: &Contents) -> Result<(Store, StorePass), AllocError>
    requires numbers { HasMapsAndQueues shape start.now }
    requires room { needed start.now ≤ shape.base }
    ensures shape { IfOk result (λ r. r.0.origin.shape ≡ shape) }
    ensures start { IfOk result (λ r. start_of r.0 ≡ start.now) }
    ensures of { IfOk result (λ r. IsPassOf r.0 r.1) }
    ensures fresh { IfOk result (λ r. IsFresh r.1) }
    ensures untouched { IfOk result (λ r. IsUntouched r.0.origin.shape r.0.origin.words) }
{
    let words = lay(alloc, &shape, start)?;
    let (field, pass) = Field::open(alloc, shape, words)?;
    Ok((Store { field, alloc }, StorePass::of(pass)))
}
