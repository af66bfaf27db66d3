//! The store as a theory.

use md_list_law::HasLists;
use md_machine::Theory;
use md_queue_law::HasQueues;

/// Hash tables and queues, and nothing else: every placed node is of a bucket or of a queue.
pub struct StoreTheory;

impl Theory for StoreTheory {
    ghost use Rattle.md_store_law.specs.Store.{store};
    ghost use Rattle.md_store_law.specs.Laws.StoreLaws.{store_lawful};

    ghost meaning = { store };

    ghost lawful = { store_lawful };
}

impl HasLists for StoreTheory {
    ghost use Rattle.md_store_law.specs.Laws.StoreLaws.{store_has_lists};

    ghost has_lists = { store_has_lists };
}

impl HasQueues for StoreTheory {
    ghost use Rattle.md_store_law.specs.Laws.StoreLaws.{store_has_queues};

    ghost has_queues = { store_has_queues };
}
