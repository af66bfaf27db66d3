//! The calls of a transaction of a store.

use crate::txn::StoreTxn;
use md_history::{Line, Stop, TxCalls};
use md_store_bodies::{
    dequeue_in, enqueue_in, front_in, get_in, insert_in, line_in, put_in, remove_in,
};

impl<'a> TxCalls for StoreTxn<'a> {
    ghost use Rattle.md_store_bodies.specs.Running.{Kept};

    ghost acts = { λ t. t.now.hand.acts };

    ghost stop = { λ t. t.refused };

    ghost Kept = { Kept };

    ghost kept = { λ t. t.kept };

    ghost maps = { λ k. k.field.origin.shape.maps };

    ghost queues = { λ k. k.field.origin.shape.queues };

    fn get(&mut self, map: u32, key: u64) -> Result<Option<u64>, Stop> {
        get_in(&mut self.txn, &mut self.broken, &self.before, map, key)
    }

    fn insert(&mut self, map: u32, key: u64, value: u64) -> Result<bool, Stop> {
        insert_in(
            &mut self.txn,
            &mut self.broken,
            &self.before,
            map,
            key,
            value,
        )
    }

    fn remove(&mut self, map: u32, key: u64) -> Result<Option<u64>, Stop> {
        remove_in(&mut self.txn, &mut self.broken, &self.before, map, key)
    }

    fn put(&mut self, map: u32, key: u64, value: u64) -> Result<Option<u64>, Stop> {
        put_in(
            &mut self.txn,
            &mut self.broken,
            &self.before,
            map,
            key,
            value,
        )
    }

    fn enqueue(&mut self, queue: u32, value: u64) -> Result<(), Stop> {
        enqueue_in(&mut self.txn, &mut self.broken, &self.before, queue, value)
    }

    fn dequeue(&mut self, queue: u32) -> Result<Option<u64>, Stop> {
        dequeue_in(&mut self.txn, &mut self.broken, &self.before, queue)
    }

    fn front(&mut self, queue: u32) -> Result<Option<u64>, Stop> {
        front_in(&mut self.txn, &mut self.broken, &self.before, queue)
    }

    fn line(&mut self, queue: u32, n: u8) -> Result<Line, Stop> {
        line_in(&mut self.txn, &mut self.broken, &self.before, queue, n)
    }
}
