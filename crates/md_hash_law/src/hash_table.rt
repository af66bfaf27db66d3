//! The theory of hash tables.

ghost use Rattle.md_machine.specs.Legal.{AlwaysMeant};
ghost use Rattle.md_machine.specs.Serial.{SchedulesAreSerial};
ghost use Rattle.md_machine.specs.Theorem.{AlwaysKept, AlwaysGoesOn};
ghost use Rattle.md_hash_law.specs.HashTable.{hash_table};
ghost use Rattle.md_hash_law.specs.Rows.{WorkedTables};

use md_list_law::HasLists;
use md_machine::{Theory, all_schedules};

/// Hash tables and nothing else: every placed node is of a bucket. The state has the shape's maps
/// and no queue.
pub struct HashTheory;

impl Theory for HashTheory {
    ghost use Rattle.md_hash_law.specs.Laws.HashTableLaws.{certificate_law, frame_law, link_law};
    ghost use Rattle.md_hash_law.specs.Laws.HashTableLaws.{tidy_law};

    ghost meaning = { hash_table };

    ghost lawful = { record {
      certificate = certificate_law;
      tidy = tidy_law;
      frame = frame_law;
      link = link_law;
    } };
}

impl HasLists for HashTheory {
    ghost use Rattle.md_hash_law.specs.Laws.HashTableLaws.{has_lists_law};

    ghost has_lists = { has_lists_law };
}

/// It does nothing: its contract is the theorem over all schedules, of hash tables.
pub fn hash_table_schedules()
    ensures kept { AlwaysKept hash_table }
    ensures goes_on { AlwaysGoesOn hash_table }
    ensures legal { AlwaysMeant hash_table }
    ensures serial { SchedulesAreSerial hash_table }
{
    all_schedules::<HashTheory>();
}

/// It does nothing: its contract is that worked hash tables go as they must. Each certificate is
/// one of the theory and stands, and the maps stand for the pairs expected.
pub fn worked_tables()
    ensures { WorkedTables }
{}
