//! A cell as a theory, and what holds of it over all schedules.

ghost use Rattle.md_machine.specs.Legal.{AlwaysMeant};
ghost use Rattle.md_machine.specs.Serial.{SchedulesAreSerial};
ghost use Rattle.md_machine.specs.Theorem.{AlwaysKept, AlwaysGoesOn};
ghost use Rattle.example_cell.specs.CellMeaning.{cell_meaning};

use md_machine::{Theory, all_schedules};

/// A map of one key, whose value stands in one word.
pub struct CellTheory;

impl Theory for CellTheory {
    ghost use Rattle.example_cell.specs.CellMeaning.{cell_meaning};
    ghost use Rattle.example_cell.specs.Lawful.{cell_lawful};

    ghost meaning = { cell_meaning };

    ghost lawful = { cell_lawful };
}

/// The theorem over all schedules, at the cell. It does nothing: its contract is the theorem.
pub fn cell_schedules()
    ensures kept { AlwaysKept cell_meaning }
    ensures goes_on { AlwaysGoesOn cell_meaning }
    ensures legal { AlwaysMeant cell_meaning }
    ensures serial { SchedulesAreSerial cell_meaning }
{
    all_schedules::<CellTheory>();
}
