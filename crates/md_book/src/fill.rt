//! Filling from resting orders.

ghost use Rattle.std.specs.Prelude.{◌≡◌, ◌<◌, ◌≤◌, ◌+◌, None, IfOk, IfErr};
ghost use Rattle.md_history.specs.Playing.{PlaysPart};
ghost use Rattle.md_book.specs.Book.{IsPrice};
ghost use Rattle.md_book.specs.Filling.{unfilled, with_part, take_parts, book_taken, fill};

use crate::commands::{BookReply, Part, Side};
use crate::fronts::{Look, look_front};
use crate::limits::MAX_PARTS;
use crate::maps::{DEPTHS, LEVELS, MAPS};
use crate::parts::{lower, raise};
use md_history::{Stop, TxCalls};

/// How far a fill has come: what remains to be taken, and the parts that were taken.
#[derive(Clone, Copy, Debug)]
struct Filling {
    rest: u32,
    count: u8,
    parts: [Part; MAX_PARTS],
}

impl Filling {
    /// Nothing was taken yet.
    fn unfilled(quantity: u32) -> Filling
        ensures { result ≡ unfilled quantity }
    {
        Filling {
            rest: quantity,
            count: 0,
            parts: [Part { name: 0, taken: 0 }; MAX_PARTS],
        }
    }

    /// Adds a part.
    fn add(&mut self, part: Part)
        requires room { self.old.count + 1 ≤ MAX_PARTS }
        requires part { part.taken ≤ self.old.rest }
        ensures { self.new ≡ with_part self.old part }
    {
        self.rest -= part.taken;
        self.parts[self.count as usize] = part;
        self.count += 1;
    }
}

/// Looks at up to `places` places of a level, as long as something remains to be taken.
fn take_parts<T: TxCalls>(
    t: &mut T,
    side: Side,
    level: u32,
    quantity: u32,
    places: u8,
) -> Result<Filling, Stop>
    requires room { places ≤ MAX_PARTS }
    requires going { T.stop t.old ≡ None }
    requires maps { MAPS ≤ T.maps (T.kept t.old) }
    requires level { level < T.queues (T.kept t.old) }
    ensures plays { PlaysPart (take_parts side level places (unfilled quantity)) result
        T.acts T.stop t.old t.new }
    ensures kept { T.kept t.new ≡ T.kept t.old }
    ensures rest { IfOk result (λ f. f.rest ≤ quantity) }
{
    let mut filling = Filling::unfilled(quantity);
    for _ in 0..places {
        if filling.rest == 0 {
            break;
        }
        match look_front(t, side, level, filling.rest)? {
            Look::Nobody => break,
            Look::Dead => {}
            Look::Live(part) => filling.add(part),
        }
    }
    Ok(filling)
}

/// Adds what was taken in all to the taker's sum, and takes it off the depth.
fn book_taken<T: TxCalls>(
    t: &mut T,
    side: Side,
    level: u32,
    account: u32,
    taken: u32,
) -> Result<(), Stop>
    requires going { T.stop t.old ≡ None }
    requires maps { MAPS ≤ T.maps (T.kept t.old) }
    ensures plays { PlaysPart (book_taken side level account taken) result
        T.acts T.stop t.old t.new }
    ensures kept { T.kept t.new ≡ T.kept t.old }
{
    if taken != 0 {
        raise(t, side.taker_sums(), account as u64, taken as u64)?;
        lower(t, DEPTHS, level as u64, taken as u64)?;
    }
    Ok(())
}

/// Takes parts from up to `places` places, and then books what was taken in all.
pub(crate) fn fill<T: TxCalls>(
    t: &mut T,
    account: u32,
    side: Side,
    price: u32,
    quantity: u32,
    places: u8,
) -> Result<BookReply, Stop>
    requires room { places ≤ MAX_PARTS }
    requires price { IsPrice price }
    requires going { T.stop t.old ≡ None }
    requires maps { MAPS ≤ T.maps (T.kept t.old) }
    requires queues { LEVELS ≤ T.queues (T.kept t.old) }
    ensures plays { PlaysPart (fill account side price quantity places) result
        T.acts T.stop t.old t.new }
    ensures kept { T.kept t.new ≡ T.kept t.old }
{
    let level = side.level(price);
    let Filling { rest, count, parts } = take_parts(t, side, level, quantity, places)?;
    let taken = quantity - rest;
    book_taken(t, side, level, account, taken)?;
    Ok(BookReply::Filled {
        taken,
        rest,
        count,
        parts,
    })
}
