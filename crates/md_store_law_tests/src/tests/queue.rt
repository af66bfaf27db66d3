//! The theorem over all schedules, and the facts that are lent, at queues alone.

ghost use Rattle.md_machine.specs.Legal.{AlwaysMeant};
ghost use Rattle.md_machine.specs.Serial.{SchedulesAreSerial};
ghost use Rattle.md_machine.specs.Theorem.{AlwaysKept, AlwaysGoesOn};
ghost use Rattle.md_queue_law.specs.QueueFacts.{HeadNamesOne, TailNamesOne, RanksRise, LastAlone};
ghost use Rattle.md_queue_law.specs.QueueMeaning.{queue_meaning};

use md_machine::all_schedules;
use md_queue_law::{QueueTheory, queue_facts, worked_rows};
use std::test::Fail;

// what the theorem says of queues
fn schedules_of_queues()
    ensures kept { AlwaysKept queue_meaning }
    ensures goes_on { AlwaysGoesOn queue_meaning }
    ensures legal { AlwaysMeant queue_meaning }
    ensures serial { SchedulesAreSerial queue_meaning }
{
    all_schedules::<QueueTheory>();
}

// what is lent of queues
fn facts_of_queues()
    ensures head { HeadNamesOne queue_meaning }
    ensures tail { TailNamesOne queue_meaning }
    ensures rise { RanksRise queue_meaning }
    ensures last { LastAlone queue_meaning }
{
    queue_facts::<QueueTheory>();
}

#[test]
fn queues_are_a_theory(_rt: HostRuntime) -> Result<(), Fail> {
    schedules_of_queues();
    facts_of_queues();
    worked_rows();
    Ok(())
}
