//! Parts that commands have in common.

ghost use Rattle.std.specs.Prelude.{◌≡◌, ◌<◌, None, IfOk, IfErr};
ghost use Rattle.md_history.specs.Playing.{PlaysPart};
ghost use Rattle.md_book.specs.Scripts.{raise, put_or_remove, lower};

use md_history::{Stop, TxCalls};

/// Adds to a key's value, at most up to the largest number. A key without a value counts as 0.
/// Callers pass a `by` that isn't 0: with 0, a key without a value would get the value 0.
pub fn raise<T: TxCalls>(t: &mut T, map: u32, key: u64, by: u64) -> Result<(), Stop>
    requires going { T.stop t.old ≡ None }
    requires map { map < T.maps (T.kept t.old) }
    ensures plays { PlaysPart (raise map key by) result T.acts T.stop t.old t.new }
    ensures kept { T.kept t.new ≡ T.kept t.old }
{
    let before = t.get(map, key)?.unwrap_or(0);
    t.put(map, key, before.saturating_add(by))?;
    Ok(())
}

/// Gives a key a value, or removes it if that is 0.
fn put_or_remove<T: TxCalls>(t: &mut T, map: u32, key: u64, value: u64) -> Result<(), Stop>
    requires going { T.stop t.old ≡ None }
    requires map { map < T.maps (T.kept t.old) }
    ensures plays { PlaysPart (put_or_remove map key value) result T.acts T.stop t.old t.new }
    ensures kept { T.kept t.new ≡ T.kept t.old }
{
    if value == 0 {
        t.remove(map, key)?;
    } else {
        t.put(map, key, value)?;
    }
    Ok(())
}

/// Takes off a key's value, at most down to 0. A key whose value becomes 0 is removed.
pub(crate) fn lower<T: TxCalls>(t: &mut T, map: u32, key: u64, by: u64) -> Result<(), Stop>
    requires going { T.stop t.old ≡ None }
    requires map { map < T.maps (T.kept t.old) }
    ensures plays { PlaysPart (lower map key by) result T.acts T.stop t.old t.new }
    ensures kept { T.kept t.new ≡ T.kept t.old }
{
    let before = t.get(map, key)?.unwrap_or(0);
    put_or_remove(t, map, key, before.saturating_sub(by))
}
