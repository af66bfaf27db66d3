//! Sweeping: taking from the best levels of the other side.

ghost use Rattle.std.specs.Prelude.{◌≡◌, ◌<◌, ◌≤◌, ◌+◌, ◌*◌, false, None, IfOk, IfErr, IfSome};
ghost use Rattle.md_history.specs.Playing.{PlaysPart};
ghost use Rattle.md_book.specs.Book.{IsPrice};
ghost use Rattle.md_match.specs.Matching.{opposite};
ghost use Rattle.md_match.specs.Sweeping.{unswept, with_part, take_at, sweep_levels};

use crate::best::{find_best, opposite};
use crate::commands::At;
use crate::depths::lower_level;
use crate::limits::MAX_LOOKS;
use crate::maps::MATCH_MAPS;
use md_book::{LEVELS, Look, Side, look_front};
use md_history::{Stop, TxCalls};

/// How far a sweep has come: what remains to be taken, whether no price is left, and the parts that
/// were taken.
#[derive(Clone, Copy, Debug)]
pub(crate) struct Sweep {
    pub(crate) rest: u32,
    pub(crate) clear: bool,
    pub(crate) count: u8,
    pub(crate) parts: [At; MAX_LOOKS],
}

impl Sweep {
    /// Nothing was taken yet.
    fn unswept(quantity: u32) -> Sweep
        ensures { result ≡ unswept quantity }
    {
        Sweep {
            rest: quantity,
            clear: false,
            count: 0,
            parts: [At {
                name: 0,
                price: 0,
                taken: 0,
            }; MAX_LOOKS],
        }
    }

    /// Adds a part.
    fn add(&mut self, part: At)
        requires room { self.old.count + 1 ≤ MAX_LOOKS }
        requires part { part.taken ≤ self.old.rest }
        ensures { self.new ≡ with_part self.old part }
    {
        self.rest -= part.taken;
        self.parts[self.count as usize] = part;
        self.count += 1;
    }
}

/// Looks at the first place of a level, and takes as much as there is, at most `rest`. Returns what
/// it took, or `None` if the place was that of a cancelled order.
fn take_at<T: TxCalls>(t: &mut T, side: Side, price: u32, rest: u32) -> Result<Option<At>, Stop>
    requires price { IsPrice price }
    requires going { T.stop t.old ≡ None }
    requires maps { MATCH_MAPS ≤ T.maps (T.kept t.old) }
    requires queues { LEVELS ≤ T.queues (T.kept t.old) }
    ensures plays { PlaysPart (take_at side price rest) result T.acts T.stop t.old t.new }
    ensures kept { T.kept t.new ≡ T.kept t.old }
    ensures taken { IfOk result (λ part. IfSome part (λ p. p.taken ≤ rest)) }
{
    let level = side.level(price);
    let look = look_front(t, side, level, rest)?;
    let Look::Live(part) = look else {
        return Ok(None);
    };
    lower_level(t, level as u64, part.taken as u64)?;
    Ok(Some(At {
        name: part.name,
        price,
        taken: part.taken,
    }))
}

/// Looks at up to `MAX_LOOKS` places, each the first one of the best level at that time, as long as
/// something remains to be taken. If something remains in the end, it also finds out whether a
/// price is left.
pub(crate) fn sweep_levels<T: TxCalls>(
    t: &mut T,
    side: Side,
    limit: u32,
    quantity: u32,
) -> Result<Sweep, Stop>
    requires going { T.stop t.old ≡ None }
    requires maps { MATCH_MAPS ≤ T.maps (T.kept t.old) }
    requires queues { LEVELS ≤ T.queues (T.kept t.old) }
    ensures plays { PlaysPart (sweep_levels side limit MAX_LOOKS (unswept quantity)) result
        T.acts T.stop t.old t.new }
    ensures kept { T.kept t.new ≡ T.kept t.old }
    ensures rest { IfOk result (λ f. f.rest ≤ quantity) }
{
    let mut sweep = Sweep::unswept(quantity);
    for looks in 0..=MAX_LOOKS {
        if sweep.rest == 0 {
            break;
        }
        let best = find_best(t, side, limit)?;
        let Some(price) = best else {
            sweep.clear = true;
            break;
        };
        if looks == MAX_LOOKS {
            break;
        }
        let taken = take_at(t, opposite(side), price, sweep.rest)?;
        if let Some(part) = taken {
            sweep.add(part);
        }
    }
    Ok(sweep)
}
