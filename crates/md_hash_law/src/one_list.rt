//! The theory of one list, of which md_list_law has the definitions and proves the laws.

ghost use Rattle.md_machine.specs.Legal.{AlwaysMeant};
ghost use Rattle.md_machine.specs.Serial.{SchedulesAreSerial};
ghost use Rattle.md_machine.specs.Theorem.{AlwaysKept, AlwaysGoesOn};
ghost use Rattle.md_list_law.specs.OneList.{one_list};

use md_machine::{Theory, all_schedules};

/// One list: bucket 0 of map 0, with keys of any number. Every placed node is of it.
pub struct ListTheory;

impl Theory for ListTheory {
    ghost use Rattle.md_list_law.proofs.OneListLaws.{one_list_lawful};

    ghost meaning = { one_list };

    ghost lawful = { one_list_lawful };
}

/// It does nothing: its contract is the theorem over all schedules, of one list.
pub fn one_list_schedules()
    ensures kept { AlwaysKept one_list }
    ensures goes_on { AlwaysGoesOn one_list }
    ensures legal { AlwaysMeant one_list }
    ensures serial { SchedulesAreSerial one_list }
{
    all_schedules::<ListTheory>();
}
