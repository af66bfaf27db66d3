//! Worked rows: what the definitions say of one small queue.

ghost use Rattle.md_queue_law.specs.Rows.{WorkedRows};

/// Two values are enqueued in an empty queue, the tail follows late, and they are looked at and
/// dequeued, until the queue is found empty. Each heap on the way is valid.
pub fn worked_rows()
    ensures { WorkedRows }
{}
