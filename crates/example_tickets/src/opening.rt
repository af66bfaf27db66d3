//! A dispenser that is opened.

ghost use Rattle.std.specs.Prelude.{◌≡◌, IfOk, replicate};
ghost use Rattle.md_machine.specs.Event.{first_pass};
ghost use Rattle.md_rule.specs.Views.{IsOf};

use example_cell::{CellTheory, cell_rows};
use md_rule::{Field, Pass};
use md_words::Shape;
use std::alloc::{AllocError, Global};

/// A field of the cell in which every word is 0, and the pass of all its lanes. Each lane may
/// serve a thread of its own.
pub fn dispenser(
    alloc: Global,
    shape: Shape,
) -> Result<(Field<CellTheory>, Pass<CellTheory>), AllocError>
    ensures field { IfOk result (λ r. r.0.origin.shape ≡ shape) }
    ensures pass { IfOk result (λ r. IsOf r.1 r.0 × (r.1.view ≡ first_pass shape)) }
{
    cell_rows();
    let words = zeros(alloc, shape.words() as usize)?;
    Field::open(alloc, shape, words)
}

fn zeros(alloc: Global, count: usize) -> Result<Vec<u64>, AllocError>
    ensures { IfOk result (λ v. v.items ≡ replicate count 0) }
{
    vec![in alloc; 0; count]
}
