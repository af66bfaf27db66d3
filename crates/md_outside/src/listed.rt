//! The calls that are listed to fail.

ghost use Rattle.std.specs.Prelude.{◌↔◌, IsTrue};
ghost use Rattle.std.specs.List.{Contains};

/// Whether the number of a call is in the list. Calls are counted from 1.
pub fn is_listed(failing: &[u32], call: u64) -> bool
    ensures { IsTrue result ↔ Contains failing.now call }
{
    failing.iter().any(|&listed| u64::from(listed) == call)
}
