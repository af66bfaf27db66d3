//! Callers on threads over the concurrent store, and the orders that explain what they were told.

ghost use Rattle.std.specs.Prelude.{◌≡◌, ◌≤◌, length, IfOk};

mod crossings;
mod explained;
mod unexplained;

use md_orders::{Scripts, read_orders};
use md_program_collisions::{Crossing, Meeting, callers_of, made_file, play_narrow};
use md_program_oracle::{Orders, Replayed, Told, lines_told, orders_that_explain, play_in_order};
use std::alloc::{AllocError, Global};
use std::test::Fail;

// The scripts of a file with so many callers.
fn scripts_of(alloc: Global, text: &str, callers: u32) -> Result<Scripts, Fail>
    requires { (1 ≤ callers) × (callers ≤ 8) }
    ensures { IfOk result (λ scripts. length scripts ≡ callers) }
{
    match read_orders(alloc, text.as_bytes(), callers) {
        Ok(scripts) => Ok(scripts),
        Err(_) => Err(Fail::from(AllocError)),
    }
}
