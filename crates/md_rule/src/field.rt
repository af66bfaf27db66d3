//! The field: the table and its shape.

ghost use Rattle.std.specs.Prelude.{◌≡◌, List, IfOk, replicate};
ghost use Rattle.md_machine.specs.declared.node.PlacedNode.{PlacedNode};
ghost use Rattle.md_machine.specs.Event.{CanOpen, first_pass};
ghost use Rattle.md_rule_lanes.specs.declared.shares.TheConstants.{UNUSED};
ghost use Rattle.md_rule.specs.Views.{IsOf};

use crate::known::Known;
use crate::pass::Pass;
use crate::rule::{Key, Ruled};
use atomic_table::Table;
use md_machine::Theory;
use md_rule_lanes::own_words;
use md_words::Shape;
use std::alloc::{AllocError, Global};
use std::marker::Model;
use std::snapshot::Snapshot;

/// A table of shared words under the rule: its words, and what its passes know, show a machine to
/// which events lead from the opening. Threads share it by `&`. Each steps on it by a `Pass` of its
/// own.
///
/// A field with one lane has one pass only. That pass has the words itself, and its steps are plain
/// loads and stores of them.
#[derive(Drop)]
pub struct Field<T: Theory> {
    pub(crate) table: Table<(), Known, Key, Ruled<T>, Global>,
    shape: Shape,
}

impl<T: Theory> Model for Field<T> {
    ghost use Rattle.std.specs.Prelude.{◌≡◌};
    ghost use Rattle.md_rule.specs.Private.{table_words};
    ghost use Rattle.md_rule.specs.Views.{FieldView};

    ghost Value = { FieldView };

    ghost view = { λ f. record {
      table = f.table.shared.table_id;
      origin = record {
        shape = f.table.shared.key.shape;
        words = f.table.shared.key.words.value.items;
      };
    } };

    ghost invariant = { λ f. (f.shape ≡ f.table.shared.key.shape)
        × (f.table.shared.table_id.words ≡ table_words f.table.shared.key.shape)
        × (f.table.shared.table_id.slots ≡ 0) };
}

impl<T: Theory> Field<T> {
    /// Makes a field of these words, and the pass that holds all its lanes. With some base nodes
    /// placed, the words may be an opening of the machine (`CanOpen`): they are a valid heap of the
    /// theory with even counts, and the words of the lanes' nodes and of the descriptors are 0.
    ///
    /// `AllocError` if memory runs out; then nothing was made. Takes time linear in the words, of
    /// which there are at most `MAX_WORDS`: they are copied into the table. With one lane they are
    /// not copied, and it takes constant time.
    pub fn open(
        alloc: Global,
        shape: Shape,
        words: Vec<u64>,
    ) -> Result<(Field<T>, Pass<T>), AllocError>
        requires { (placed : List PlacedNode)
            × CanOpen T.meaning (record { shape = shape; words = words.items; placed = placed }) }
        ensures field { IfOk result
            (λ r. r.0.origin ≡ record { shape = shape; words = words.items }) }
        ensures pass { IfOk result (λ r. IsOf r.1 r.0 × (r.1.view ≡ first_pass shape)
            × (r.1.shares ≡ replicate 64 UNUSED)) }
    {
        let key = Key {
            shape,
            words: Snapshot::of(&words),
        };
        if shape.lanes == 1 {
            let (table, seat) = Table::of_words(alloc, &[0], &key)?;
            Ok((
                Field { table, shape },
                Pass::of(seat, shape, own_words(&shape, words)),
            ))
        } else {
            let (table, seat) = Table::of_words(alloc, words.as_slice(), &key)?;
            Ok((
                Field { table, shape },
                Pass::of(seat, shape, own_words(&shape, words)),
            ))
        }
    }

    /// The numbers of the field. It takes no memory and makes no step.
    pub fn shape(&self) -> &Shape
        ensures { result.now ≡ self.now.origin.shape }
    {
        &self.shape
    }

    pub(crate) fn into_table(self) -> Table<(), Known, Key, Ruled<T>, Global>
        ensures table { (result.shared.table_id ≡ self.table) × (result.shared.table_id.slots ≡ 0) }
        ensures origin { record {
          shape = result.shared.key.shape;
          words = result.shared.key.words.value.items;
        } ≡ self.origin }
    {
        let Field { table, shape: _ } = self;
        table
    }
}
