//! Fields that are opened and closed at once.

ghost use Rattle.std.specs.Prelude.{◌≡◌};
ghost use Rattle.md_machine.specs.Event.{first_pass};
ghost use Rattle.md_rule.specs.Views.{IsOf};
ghost use Rattle.md_store_law.specs.Opens.{OpensWith};

use super::*;
use example_tickets::dispenser;
use md_machine::Theory;
use md_rule::{Field, Pass};
use md_store_law::StoreTheory;
use md_store_layout::{lay, needed};

// Closes a field on which no step was made: its words.
fn closed<R: Abort + AllocGlobal, T: Theory>(rt: &R, field: Field<T>, pass: Pass<T>) -> Vec<u64>
    requires field { IsOf pass field }
    requires first { pass.view ≡ first_pass field.origin.shape }
{
    field.close(rt.alloc(), pass).expect(rt, "memory").words
}

// All bits of words.
fn bits_of(words: &[u64]) -> u64 {
    let mut bits = 0;
    for word in words {
        bits |= *word;
    }
    bits
}

// The words of contents, if they are of the shape and fit it.
fn laid<R: Abort + AllocGlobal>(rt: &R, shape: &Shape, contents: &Contents) -> Vec<u64>
    ensures { OpensWith shape.now result.items contents.now }
{
    holds(rt, contents.maps().len() == shape.maps as usize);
    holds(rt, contents.queues().len() == shape.queues as usize);
    holds(rt, needed(contents) <= shape.base as u64);
    lay(rt.alloc(), shape, contents).expect(rt, "memory")
}

// The words of contents, and those that a field leaves which was opened with them.
fn laid_and_closed<R: Abort + AllocGlobal>(
    rt: &R,
    shape: Shape,
    contents: &Contents,
) -> (Vec<u64>, Vec<u64>) {
    let words = laid(rt, &shape, contents);
    let copy = words.clone().expect(rt, "memory");
    let opened = Field::<StoreTheory>::open(rt.alloc(), shape, words);
    let (field, pass) = opened.expect(rt, "memory");
    (copy, closed(rt, field, pass))
}

// A field that is opened with contents and closed leaves their words, and so many.
fn leaves<R: Abort + AllocGlobal>(
    rt: &R,
    shape: Result<Shape, ShapeFault>,
    contents: &Contents,
) -> usize {
    let shape = shape.expect(rt, "a shape");
    let (laid, left) = laid_and_closed(rt, shape, contents);
    same(rt, &left, &laid);
    left.len()
}

#[test]
fn an_empty_field_is_closed_as_it_was_opened(rt: HostRuntime) {
    let shape = Shape::new(2, 16, 1, 4, 1, 64, 1).expect(&rt, "a shape");
    let (field, pass) = dispenser(rt.alloc(), shape).expect(&rt, "memory");
    let words = closed(&rt, field, pass);
    same(&rt, &(words.len(), bits_of(&words)), &(1448, 0));
}

// The field of empty contents has one base node, the dummy of the queue.
#[test]
fn a_laid_field_is_closed_as_it_was_opened(rt: HostRuntime) {
    let empty = Contents::empty(rt.alloc(), 1, 1).expect(&rt, "memory");
    let words = leaves(&rt, Shape::new(2, 16, 1, 4, 1, 64, 1), &empty);
    same(&rt, &words, &1448);
    let contents = pair_and_value(&rt, 5, 6, 7);
    leaves(&rt, Shape::new(2, 16, 4, 4, 1, 64, 1), &contents);
}
