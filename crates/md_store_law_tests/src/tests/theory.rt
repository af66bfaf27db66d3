//! The theorem over all schedules, and what walks show, at the store.

ghost use Rattle.md_machine.specs.Event.{CanOpen};
ghost use Rattle.md_machine.specs.Legal.{AlwaysMeant};
ghost use Rattle.md_machine.specs.Serial.{SchedulesAreSerial};
ghost use Rattle.md_machine.specs.Theorem.{AlwaysKept, AlwaysGoesOn};
ghost use Rattle.md_machine_schedules.specs.Clearing.{ClearingRow};
ghost use Rattle.md_machine_schedules.specs.Field.{small_opening};
ghost use Rattle.md_machine_schedules.specs.Schedules.{StoppedRow, HelpedRow, MovedRow};
ghost use Rattle.md_machine_schedules.specs.Unlinking.{UnlinkedRow};
ghost use Rattle.md_store_law.specs.Store.{store};

use md_list_law::list_facts;
use md_machine::all_schedules;
use md_machine_schedules::{clearing_row, unlinking_row, worked_rows};
use md_queue_law::queue_facts;
use md_store_law::{StoreTheory, even_fields_are_stores};
use std::test::Fail;

// what the theorem says of stores
fn schedules_of_stores()
    ensures kept { AlwaysKept store }
    ensures goes_on { AlwaysGoesOn store }
    ensures legal { AlwaysMeant store }
    ensures serial { SchedulesAreSerial store }
{
    all_schedules::<StoreTheory>();
}

// the worked schedules of the machine are runs of stores: they have their certificates, and the
// empty field on which they run may be opened
fn schedules_with_certificates()
    ensures opens { CanOpen store small_opening }
    ensures cleared { ClearingRow store }
    ensures stopped { StoppedRow store }
    ensures helped { HelpedRow store }
    ensures moved { MovedRow store }
    ensures unlinked { UnlinkedRow store }
{
    clearing_row::<StoreTheory>();
    worked_rows::<StoreTheory>();
    unlinking_row::<StoreTheory>();
}

#[test]
fn stores_are_a_theory(_rt: HostRuntime) -> Result<(), Fail> {
    schedules_of_stores();
    schedules_with_certificates();
    list_facts::<StoreTheory>();
    queue_facts::<StoreTheory>();
    even_fields_are_stores();
    Ok(())
}
