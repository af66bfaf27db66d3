//! Fields of the cell, and passes that step on them.

ghost use Rattle.std.specs.Prelude.{◌≡◌, IfSome, None};
ghost use Rattle.md_machine.specs.Event.{first_pass};
ghost use Rattle.md_rule.specs.Views.{IsOf};

mod arena;
mod calm;
mod cell;
mod help;
mod passes;
mod stalls;
mod tickets;
mod transactions;

use example_cell::CellTheory;
use example_tickets::dispenser;
use md_rule::{Field, Pass};
use md_words::{Shape, ShapeFault};
use std::alloc::AllocGlobal;
use std::fmt::Debug;
use std::process::Abort;

// What was found is what was wanted. (A call is proved sooner than an `assert_eq!`.)
fn same<T: PartialEq + Debug>(rt: &impl Abort, found: &T, wanted: &T) {
    assert_eq!(rt; *found, *wanted);
}

// A field in which every word is 0, and the pass of all its lanes, which has made no step.
fn unstepped<R: Abort + AllocGlobal>(
    rt: &R,
    shape: Result<Shape, ShapeFault>,
) -> (Field<CellTheory>, Pass<CellTheory>)
    ensures of { IsOf result.1 result.0 }
    ensures view { result.1.view ≡ first_pass result.1.shape }
{
    let shape = shape.expect(rt, "a shape");
    dispenser(rt.alloc(), shape).expect(rt, "memory")
}

// The same, with less said of the pass: it is the field's.
fn blank<R: Abort + AllocGlobal>(
    rt: &R,
    shape: Result<Shape, ShapeFault>,
) -> (Field<CellTheory>, Pass<CellTheory>)
    ensures { IsOf result.1 result.0 }
{
    unstepped(rt, shape)
}

// The same: it is the field's, and has nothing in hand.
fn idle<R: Abort + AllocGlobal>(
    rt: &R,
    shape: Result<Shape, ShapeFault>,
) -> (Field<CellTheory>, Pass<CellTheory>)
    ensures of { IsOf result.1 result.0 }
    ensures idle { result.1.view.hand ≡ None }
{
    unstepped(rt, shape)
}

// Splits a pass. None if it has one lane.
fn split(field: &Field<CellTheory>, pass: &mut Pass<CellTheory>) -> Option<Pass<CellTheory>>
    requires { IsOf pass.old field.now }
    ensures kept { IsOf pass.new field.now }
    ensures given { IfSome result (λ p. IsOf p field.now) }
{
    pass.split(field)
}

// What a pass that has several lanes gives when it is split.
fn part_of(
    rt: &impl Abort,
    field: &Field<CellTheory>,
    pass: &mut Pass<CellTheory>,
) -> Pass<CellTheory>
    requires { IsOf pass.old field.now }
    ensures kept { IsOf pass.new field.now }
    ensures given { IsOf result field.now }
{
    split(field, pass).expect(rt, "several lanes")
}

// Joins two passes.
fn join_one(field: &Field<CellTheory>, pass: &mut Pass<CellTheory>, other: Pass<CellTheory>)
    requires of { IsOf pass.old field.now }
    requires of_other { IsOf other field.now }
    ensures { IsOf pass.new field.now }
{
    pass.join(field, other);
}
