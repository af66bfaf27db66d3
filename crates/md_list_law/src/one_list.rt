//! The theory of one list.

ghost use Rattle.md_machine.specs.Meaning.{Lawful};
ghost use Rattle.md_list_law.specs.OneList.{OneListRises, one_list};
ghost use Rattle.md_list_law.specs.Rows.{WorkedList};

/// It does nothing: its contract is that the theory of one list has the laws, and that keys rise
/// along its links also in what a doomed transaction sees.
pub fn one_list_laws()
    ensures lawful { Lawful one_list }
    ensures rises { OneListRises }
{}

/// It does nothing: its contract is that a worked list goes as it must. Each certificate is one of
/// the theory and stands, and the list stands for the pairs expected after each.
pub fn worked_list()
    ensures { WorkedList }
{}
