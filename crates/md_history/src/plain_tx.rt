//! A transaction of the store for one thread.

ghost use Rattle.std.specs.Prelude.{◌≡◌, ◌∷◌, ◌++◌, [], Some, IfErr, OnOk, OnErr};
ghost use Rattle.md_history.specs.Act.{act_of};

use crate::acts::{Acts, Line, Op, Reply};
use crate::calls::TxCalls;
use crate::contents::Contents;
use crate::stops::Stop;
use std::marker::Model;
use std::snapshot::Snapshot;

/// A transaction under way. It changes the contents in place: after a refusal they are of no more
/// use.
#[derive(Drop)]
pub(crate) struct PlainTx {
    pub(crate) start: Snapshot<Contents>,
    pub(crate) contents: Contents,
    pub(crate) acts: Acts,
    pub(crate) refused: Option<Op>,
}

impl Model for PlainTx {
    ghost use Rattle.md_history.specs.Plain.{Running, IsRunning};

    ghost Value = { Running };

    ghost use Rattle.std.specs.Coded.{codes};
    ghost use Rattle.md_history.specs.State.{table_code};

    ghost coded = { Prim.hlevel (codes, table_code) };

    ghost view = { λ t. record { start = t.start.value; acts = t.acts; refused = t.refused } };

    ghost invariant = { λ t. IsRunning t.start.value t.contents t.acts t.refused };
}

// Keeps an act, or the operation for which memory ran out.
fn note(acts: &mut Acts, refused: &mut Option<Op>, op: Op, reply: Reply) -> Result<(), Stop>
    ensures ok { OnOk result (acts.new ≡ acts.old ++ act_of op reply ∷ []) }
    ensures goes_on { OnOk result (refused.new ≡ refused.old) }
    ensures err { IfErr result (λ e. e ≡ Stop.NoMemory) }
    ensures same { OnErr result (acts.new ≡ acts.old) }
    ensures refused { OnErr result (refused.new ≡ Some op) }
{
    match acts.push(op, reply) {
        Ok(()) => Ok(()),
        Err(_) => {
            *refused = Some(op);
            Err(Stop::NoMemory)
        }
    }
}

impl TxCalls for PlainTx {
    ghost use Rattle.std.specs.Prelude.{length};
    ghost use Rattle.md_history.specs.State.{State};
    ghost use Rattle.md_history.specs.Plain.{refusal_of};

    ghost acts = { λ t. t.acts };

    ghost stop = { λ t. refusal_of t.refused };

    ghost Kept = { State };

    ghost kept = { λ t. t.start };

    ghost maps = { λ s. length s.maps };

    ghost queues = { λ s. length s.queues };

    fn get(&mut self, map: u32, key: u64) -> Result<Option<u64>, Stop> {
        if self.refused.is_some() {
            return Err(Stop::NoMemory);
        }
        let value = self.contents.get(map, key);
        let op = Op::Get { map, key };
        note(&mut self.acts, &mut self.refused, op, Reply::Value(value))?;
        Ok(value)
    }

    fn insert(&mut self, map: u32, key: u64, value: u64) -> Result<bool, Stop> {
        if self.refused.is_some() {
            return Err(Stop::NoMemory);
        }
        let op = Op::Insert { map, key, value };
        let Ok(absent) = self.contents.add(map, key, value) else {
            self.refused = Some(op);
            return Err(Stop::NoMemory);
        };
        note(&mut self.acts, &mut self.refused, op, Reply::Flag(absent))?;
        Ok(absent)
    }

    fn remove(&mut self, map: u32, key: u64) -> Result<Option<u64>, Stop> {
        if self.refused.is_some() {
            return Err(Stop::NoMemory);
        }
        let value = self.contents.remove(map, key);
        let op = Op::Remove { map, key };
        note(&mut self.acts, &mut self.refused, op, Reply::Value(value))?;
        Ok(value)
    }

    fn put(&mut self, map: u32, key: u64, value: u64) -> Result<Option<u64>, Stop> {
        if self.refused.is_some() {
            return Err(Stop::NoMemory);
        }
        let op = Op::Put { map, key, value };
        let Ok(before) = self.contents.put(map, key, value) else {
            self.refused = Some(op);
            return Err(Stop::NoMemory);
        };
        note(&mut self.acts, &mut self.refused, op, Reply::Value(before))?;
        Ok(before)
    }

    fn enqueue(&mut self, queue: u32, value: u64) -> Result<(), Stop> {
        if self.refused.is_some() {
            return Err(Stop::NoMemory);
        }
        let op = Op::Enqueue { queue, value };
        let Ok(()) = self.contents.push(queue, value) else {
            self.refused = Some(op);
            return Err(Stop::NoMemory);
        };
        note(&mut self.acts, &mut self.refused, op, Reply::Nothing)?;
        Ok(())
    }

    fn dequeue(&mut self, queue: u32) -> Result<Option<u64>, Stop> {
        if self.refused.is_some() {
            return Err(Stop::NoMemory);
        }
        let value = self.contents.pop(queue);
        let op = Op::Dequeue { queue };
        note(&mut self.acts, &mut self.refused, op, Reply::Value(value))?;
        Ok(value)
    }

    fn front(&mut self, queue: u32) -> Result<Option<u64>, Stop> {
        if self.refused.is_some() {
            return Err(Stop::NoMemory);
        }
        let value = self.contents.first(queue);
        let op = Op::Front { queue };
        note(&mut self.acts, &mut self.refused, op, Reply::Value(value))?;
        Ok(value)
    }

    fn line(&mut self, queue: u32, n: u8) -> Result<Line, Stop> {
        if self.refused.is_some() {
            return Err(Stop::NoMemory);
        }
        let line = self.contents.line(queue, n);
        let op = Op::Line { queue, n };
        note(&mut self.acts, &mut self.refused, op, Reply::Line(line))?;
        Ok(line)
    }
}
