//! A look at the front place of a level.

ghost use Rattle.std.specs.Prelude.{◌≡◌, ◌<◌, ◌≤◌, None, IfOk, IfErr};
ghost use Rattle.md_history.specs.Playing.{PlaysPart};
ghost use Rattle.md_book.specs.Stands.{left_in};
ghost use Rattle.md_book.specs.Filling.{take_out, take_from, look_front, resting_sums, taker_sums, TakesAtMost};

use crate::commands::{Part, Side};
use crate::maps::{BOUGHT, MAPS, OPEN_ORDERS, SOLD};
use crate::packing::{account_in, left_in};
use crate::parts::raise;
use md_history::{Stop, TxCalls};

/// What a look at a level's front place met.
#[derive(Clone, Copy, Debug)]
pub enum Look {
    /// No place is left.
    Nobody,
    /// A place whose order was cancelled; it was passed.
    Dead,
    /// An order, from which this was taken.
    Live(Part),
}

impl Side {
    /// The map where this side's resting accounts have their sums.
    fn resting_sums(self) -> u32
        ensures { result ≡ resting_sums self }
    {
        match self {
            Side::Buy => BOUGHT,
            Side::Sell => SOLD,
        }
    }

    /// The map where the accounts that take from this side have their sums.
    pub fn taker_sums(self) -> u32
        ensures { result ≡ taker_sums self }
    {
        match self {
            Side::Buy => SOLD,
            Side::Sell => BOUGHT,
        }
    }
}

/// Removes the order at the front, and its place with it, if all that it has left is taken.
/// Otherwise the order has so much less left.
fn take_out<T: TxCalls>(
    t: &mut T,
    level: u32,
    name: u64,
    order: u64,
    taken: u32,
) -> Result<(), Stop>
    requires part { taken ≤ left_in order }
    requires going { T.stop t.old ≡ None }
    requires maps { MAPS ≤ T.maps (T.kept t.old) }
    requires level { level < T.queues (T.kept t.old) }
    ensures plays { PlaysPart (take_out level name order taken) result T.acts T.stop t.old t.new }
    ensures kept { T.kept t.new ≡ T.kept t.old }
{
    if left_in(order) == taken {
        t.remove(OPEN_ORDERS, name)?;
        t.dequeue(level)?;
    } else {
        t.put(OPEN_ORDERS, name, order - taken as u64)?;
    }
    Ok(())
}

/// Takes a quantity from the order at the front, and adds it to the sums of the order's account.
fn take_from<T: TxCalls>(
    t: &mut T,
    side: Side,
    level: u32,
    name: u64,
    order: u64,
    taken: u32,
) -> Result<Look, Stop>
    requires part { taken ≤ left_in order }
    requires going { T.stop t.old ≡ None }
    requires maps { MAPS ≤ T.maps (T.kept t.old) }
    requires level { level < T.queues (T.kept t.old) }
    ensures plays { PlaysPart (take_from side level name order taken) result
        T.acts T.stop t.old t.new }
    ensures kept { T.kept t.new ≡ T.kept t.old }
    ensures taken { IfOk result (TakesAtMost taken) }
{
    take_out(t, level, name, order, taken)?;
    raise(t, side.resting_sums(), account_in(order), taken as u64)?;
    Ok(Look::Live(Part { name, taken }))
}

/// Looks at the front place. If its order was cancelled, it passes the place. Otherwise it takes
/// from the order as much as there is, at most `rest`.
pub fn look_front<T: TxCalls>(t: &mut T, side: Side, level: u32, rest: u32) -> Result<Look, Stop>
    requires going { T.stop t.old ≡ None }
    requires maps { MAPS ≤ T.maps (T.kept t.old) }
    requires level { level < T.queues (T.kept t.old) }
    ensures plays { PlaysPart (look_front side level rest) result T.acts T.stop t.old t.new }
    ensures kept { T.kept t.new ≡ T.kept t.old }
    ensures taken { IfOk result (TakesAtMost rest) }
{
    let Some(name) = t.front(level)? else {
        return Ok(Look::Nobody);
    };
    let Some(order) = t.get(OPEN_ORDERS, name)? else {
        t.dequeue(level)?;
        return Ok(Look::Dead);
    };
    take_from(t, side, level, name, order, left_in(order).min(rest))
}
