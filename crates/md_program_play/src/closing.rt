//! How a store is closed for the report on the scripts that were played on it.

ghost use Rattle.std.specs.Prelude.{◌≡◌, IfOk, map};
ghost use Rattle.md_store.specs.Store.{IsPassOf, all_lanes, front_in, start_of};
ghost use Rattle.md_program_play.specs.Closing.{IsClosedForReport};

use md_book::DEPTHS;
use md_many::{OpenRounds, Rounds};
use md_store::{Store, StorePass};
use std::alloc::AllocError;

/// Closes the store on which scripts were played, as `OpenRounds::close` does, and reads off only
/// what a report says of the book: the maps `DEPTHS`, `BOUGHT` and `SOLD`. The pass holds all lanes.
///
/// The contents that are returned have these sums and the numbers of maps and queues
/// (`IsClosedForReport`): `after_lines` of md_report writes the same text from them as from the
/// whole contents. Their open orders and their queues are empty, so they stand for no book, and
/// there is nothing to play on with. The fronts are those that `OpenRounds::close` returns.
///
/// The cost of `close_maps` of md_store: no queue of a level is walked, and no open order is read.
/// `AllocError` if memory runs out; then the contents are lost.
pub fn close_for_report(rounds: OpenRounds<Store>) -> Result<Rounds<StorePass>, AllocError>
    requires of { IsPassOf rounds.engine rounds.pass }
    requires all { (front_in rounds.pass).lanes ≡ all_lanes rounds.engine.origin.shape }
    ensures { IfOk result (λ r. IsClosedForReport (start_of rounds.engine)
        (map front_in rounds.fronts.items) (front_in rounds.pass)
        (map front_in r.fronts.items) r.contents) }
{
    let OpenRounds {
        engine,
        pass,
        mut fronts,
    } = rounds;
    let (contents, front) = engine.close_maps(pass, DEPTHS)?;
    fronts.push(front)?;
    Ok(Rounds { contents, fronts })
}
