//! How many base nodes contents take.

ghost use Rattle.std.specs.Prelude.{◌≡◌, map, length};
ghost use Rattle.std.specs.List.{sum_by};
ghost use Rattle.std.specs.FinMap as fin;
ghost use Rattle.md_history.specs.Contents.{table_of};
ghost use Rattle.md_history.specs.Engine.{needed};
ghost use Rattle.md_store_law.specs.Needed.{capped};

use md_history::Contents;
use std::collections::{BTreeMap, VecDeque};

/// The number of base nodes that a field needs for these contents: one for each queue, each pair
/// and each queued value. It is 2^64 - 1 if they are more. It takes no memory.
pub fn needed(contents: &Contents) -> u64
    ensures { result ≡ capped (needed contents.now) }
{
    let dummies = contents.queues().len() as u64;
    dummies
        .saturating_add(pairs(contents.maps()))
        .saturating_add(values(contents.queues()))
}

/// The number of pairs of all maps.
fn pairs(tables: &[BTreeMap<u64, u64>]) -> u64
    ensures { result ≡ capped (sum_by fin.len (map table_of tables.now)) }
{
    let mut all = 0u64;
    for table in tables {
        all = all.saturating_add(size(table));
    }
    all
}

/// The number of pairs of one map.
fn size(table: &BTreeMap<u64, u64>) -> u64
    ensures { result ≡ fin.len (table_of table.now) }
{
    table.len() as u64
}

/// The number of values of all queues.
fn values(queues: &[VecDeque<u64>]) -> u64
    ensures { result ≡ capped (sum_by length (map (λ q. q.items) queues.now)) }
{
    let mut all = 0u64;
    for queue in queues {
        all = all.saturating_add(queue.len() as u64);
    }
    all
}
