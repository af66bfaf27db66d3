//! Theories, and the theorem over all schedules.

ghost use Rattle.md_machine.specs.Legal.{AlwaysMeant};
ghost use Rattle.md_machine.specs.Serial.{SchedulesAreSerial};
ghost use Rattle.md_machine.specs.Theorem.{AlwaysKept, AlwaysGoesOn};

/// What a heap means. A theory has a meaning, and the laws of it.
pub trait Theory {
    ghost use Rattle.md_machine.specs.Meaning.{Meaning, Lawful};

    ghost meaning: { Meaning };

    ghost lawful: { Lawful meaning };
}

/// The theorem over all schedules. It does nothing: its contract is the theorem, for every list of
/// events and every machine to which they lead.
pub fn all_schedules<T: Theory>()
    ensures kept { AlwaysKept T.meaning }
    ensures goes_on { AlwaysGoesOn T.meaning }
    ensures legal { AlwaysMeant T.meaning }
    ensures serial { SchedulesAreSerial T.meaning }
{}

/// Its last clause alone, in a reader's words. For every theory, opening, list of events and end of
/// the undecided: what the words stand for, and every reply, is what one thread would have that ran
/// the kept transactions one after another.
pub fn schedules_are_serial<T: Theory>()
    ensures { SchedulesAreSerial T.meaning }
{}
