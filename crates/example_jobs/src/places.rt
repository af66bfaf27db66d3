//! The maps and queues of a scheduler.

/// How many maps there are.
pub const MAPS: u32 = 2;

/// The map of running jobs: the key is a worker, and the value is the job that it runs.
pub const RUNNING: u32 = 0;

/// The map of finished jobs: the key is a job, and the value is the worker that finished it.
pub const FINISHED: u32 = 1;

/// How many queues of waiting jobs there are: one for each priority, the highest first.
pub const PRIORITIES: u32 = 3;

/// The queue of the lowest priority.
pub const LOWEST: u32 = PRIORITIES - 1;

/// The most jobs of a shift.
pub const MAX_JOBS: u32 = 1_000_000;

/// The most workers of a shift.
pub const MAX_WORKERS: u32 = 64;
