//! Attempts that nobody goes on with are settled, on a field of the cell.

ghost use Rattle.std.specs.Prelude.{◌≡◌, None};
ghost use Rattle.md_rule.specs.Views.{IsOf};

use super::{idle, same};
use example_cell::CellTheory;
use md_help::{End, settle_one};
use md_rule::{Field, Pass};
use md_words::Shape;

// Takes an attempt of the lowest lane that the pass has, if there is one left, and settles the
// lane's descriptor.
fn settle_next(field: &Field<CellTheory>, pass: &mut Pass<CellTheory>) -> Option<End>
    requires field { IsOf pass.old field.now }
    requires idle { pass.old.view.hand ≡ None }
    ensures field { IsOf pass.new field.now }
    ensures idle { pass.new.view.hand ≡ None }
{
    let tries = pass.shape().tries;
    let desc = pass.lane(0);
    let taken = pass.tries_taken(desc);
    if taken == tries {
        return None;
    }
    pass.set_tries_taken(desc, taken + 1);
    Some(settle_one(field, pass, desc))
}

// The status of the descriptor 0.
fn first_status(field: &Field<CellTheory>, pass: &mut Pass<CellTheory>) -> u64
    requires { IsOf pass.old field.now }
{
    let desc = field.shape().desc_of(0);
    pass.load(field, field.shape().status(desc))
}

#[test]
fn an_attempt_that_is_not_ready_is_aborted_once(rt: HostRuntime) {
    let (field, mut pass) = idle(&rt, Shape::new(2, 16, 1, 4, 1, 64, 1));
    let ends = [
        settle_next(&field, &mut pass),
        settle_next(&field, &mut pass),
    ];
    let found = (ends, first_status(&field, &mut pass));
    same(&rt, &found, &([Some(End::Aborted); 2], 3));
}
