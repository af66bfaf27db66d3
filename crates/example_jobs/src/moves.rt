//! What a worker does with jobs. Each move is one transaction.

ghost use Rattle.std.specs.Prelude.{◌≡◌, ◌≤◌, None, IfOk, IfErr};
ghost use Rattle.md_history.specs.Playing.{PlaysPart};
ghost use Rattle.md_history.specs.Script.{Did, Follows};
ghost use Rattle.example_jobs.specs.Moves.{FitsScheduler, script_of};
ghost use Rattle.example_jobs.specs.Moves.{start_first, take, finish, put_back};

use crate::places::{FINISHED, LOWEST, MAPS, PRIORITIES, RUNNING};
use md_history::{Body, Stop, TxCalls};
use md_many::LawfulBody;

/// What a worker may do.
#[derive(Clone, Copy, Debug, PartialEq, Eq)]
pub enum Step {
    /// It takes the first job of the highest priority that has one, unless it runs a job.
    Take,
    /// It finishes the job that it runs.
    Finish,
    /// It puts the job that it runs back, last in the queue of the lowest priority.
    PutBack,
}

/// A worker's step. Its reply is the job that it moved, or `None` if it moved none. As a body it
/// needs a store with at least `MAPS` maps and `PRIORITIES` queues. It reads at most 20 words,
/// writes at most 35 and takes at most 5 nodes.
#[derive(Clone, Copy, Debug, PartialEq, Eq, Drop)]
pub struct Move {
    /// The worker whose step it is.
    pub worker: u32,
    pub step: Step,
}

// The worker begins to run the first job of the highest priority that has one.
fn start_first<T: TxCalls>(t: &mut T, worker: u64) -> Result<Option<u64>, Stop>
    requires going { T.stop t.old ≡ None }
    requires maps { MAPS ≤ T.maps (T.kept t.old) }
    requires queues { PRIORITIES ≤ T.queues (T.kept t.old) }
    ensures plays { PlaysPart (start_first worker PRIORITIES 0) result T.acts T.stop t.old t.new }
    ensures kept { T.kept t.new ≡ T.kept t.old }
{
    for queue in 0..PRIORITIES {
        if let Some(job) = t.dequeue(queue)? {
            t.insert(RUNNING, worker, job)?;
            return Ok(Some(job));
        }
    }
    Ok(None)
}

// The worker takes a job, unless it runs one.
fn take<T: TxCalls>(t: &mut T, worker: u64) -> Result<Option<u64>, Stop>
    requires going { T.stop t.old ≡ None }
    requires maps { MAPS ≤ T.maps (T.kept t.old) }
    requires queues { PRIORITIES ≤ T.queues (T.kept t.old) }
    ensures plays { PlaysPart (take worker) result T.acts T.stop t.old t.new }
    ensures kept { T.kept t.new ≡ T.kept t.old }
{
    match t.get(RUNNING, worker)? {
        Some(_) => Ok(None),
        None => start_first(t, worker),
    }
}

// The worker's job is finished.
fn finish<T: TxCalls>(t: &mut T, worker: u64) -> Result<Option<u64>, Stop>
    requires going { T.stop t.old ≡ None }
    requires maps { MAPS ≤ T.maps (T.kept t.old) }
    ensures plays { PlaysPart (finish worker) result T.acts T.stop t.old t.new }
    ensures kept { T.kept t.new ≡ T.kept t.old }
{
    let Some(job) = t.remove(RUNNING, worker)? else {
        return Ok(None);
    };
    t.insert(FINISHED, job, worker)?;
    Ok(Some(job))
}

// The worker's job waits again.
fn put_back<T: TxCalls>(t: &mut T, worker: u64) -> Result<Option<u64>, Stop>
    requires going { T.stop t.old ≡ None }
    requires maps { MAPS ≤ T.maps (T.kept t.old) }
    requires queues { PRIORITIES ≤ T.queues (T.kept t.old) }
    ensures plays { PlaysPart (put_back worker) result T.acts T.stop t.old t.new }
    ensures kept { T.kept t.new ≡ T.kept t.old }
{
    let Some(job) = t.remove(RUNNING, worker)? else {
        return Ok(None);
    };
    t.enqueue(LOWEST, job)?;
    Ok(Some(job))
}

impl Body for Move {
    ghost use Rattle.std.specs.Prelude.{Option};

    type Reply = Option<u64>;

    ghost did = { λ m acts r. Did (script_of m) acts r };

    ghost makes = { λ m acts. Follows (script_of m) acts };

    ghost fits = { λ m maps queues. FitsScheduler maps queues };

    fn go<T: TxCalls>(&self, t: &mut T) -> Result<Option<u64>, Stop> {
        let worker = self.worker as u64;
        match self.step {
            Step::Take => take(t, worker),
            Step::Finish => finish(t, worker),
            Step::PutBack => put_back(t, worker),
        }
    }

    ghost did_makes = { λ m acts r did. did.follows };
}

// No move loses a job, and none needs a node more.
impl LawfulBody for Move {
    ghost use Rattle.example_jobs.specs.Jobs.{KeepsJobs};
    ghost use Rattle.example_jobs.specs.Moves.{move_bounds};

    ghost good = { λ opening s. KeepsJobs opening s };

    ghost cost = { move_bounds };

    ghost growth = { 0 };
}
