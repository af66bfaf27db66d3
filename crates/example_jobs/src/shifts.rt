//! The moves of all workers.

ghost use Rattle.std.specs.Prelude.{◌≡◌, ◌≤◌};
ghost use Rattle.example_jobs.specs.declared.places.TheConstants.{MAX_JOBS};
ghost use Rattle.example_jobs.specs.Moves.{move_at};

use crate::moves::{Move, Step};
use md_many::Lines;

/// The moves of all workers, 2 * `jobs` + 2 of each. A worker takes a job and puts it back. Then it
/// takes and finishes a job as often as there are jobs. So no job is left at the end, whatever the
/// others do. No clause promises this.
#[derive(Clone, Copy)]
pub struct Shift {
    /// How many jobs there are, 0 to `MAX_JOBS`.
    pub jobs: u32,
    /// How many workers there are, numbered from 1.
    pub workers: u32,
    pub ghost few: { jobs ≤ MAX_JOBS },
}

// The move of a worker at a line.
fn move_at(worker: u32, line: u32) -> Move
    ensures { result ≡ move_at worker line }
{
    let step = if line % 2 == 1 {
        Step::Take
    } else if line == 2 {
        Step::PutBack
    } else {
        Step::Finish
    };
    Move { worker, step }
}

impl Lines for Shift {
    ghost use Rattle.std.proofs.Common.{arith};
    ghost use Rattle.std.proofs.lemmas.Bool.Decides.{nat_tests};
    ghost use Rattle.example_jobs.specs.Moves.{line_count_of, body_of};

    type B = Move;

    ghost caller_count = { λ l. l.workers };

    ghost line_count = { λ l caller. line_count_of l.workers l.jobs caller };

    ghost body_at = { λ l caller line. body_of l.workers l.jobs caller line };

    fn callers(&self) -> u32 {
        self.workers
    }

    fn len(&self, caller: u32) -> u32 {
        if caller == 0 || caller > self.workers {
            return 0;
        }
        2 * self.jobs + 2
    }

    fn body(&self, caller: u32, line: u32) -> Option<Move> {
        if line == 0 || line > self.len(caller) {
            return None;
        }
        Some(move_at(caller, line))
    }

    ghost has_body = { λ l caller line.
        (Prim.grind (arith, nat_tests), Prim.grind (arith, nat_tests)) };

    ghost has_caller = { λ l caller other. Prim.grind (arith, nat_tests) };
}
