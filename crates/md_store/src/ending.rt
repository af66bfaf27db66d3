//! The end of a field of a store: what it contains, whole or in part, as contents or as a new field.

ghost use Rattle.std.specs.Prelude.{◌≡◌, IfOk};
ghost use Rattle.md_history.specs.Engine.{HasEnded, HasRoom, SettlesFrom};
ghost use Rattle.md_history.specs.Front.{replay_of};
ghost use Rattle.md_history.specs.State.{HaveSameNumbers};
ghost use Rattle.md_store_law.specs.MapsFrom.{MapsFrom};
ghost use Rattle.md_store.specs.Ending.{EndsField, Renews};
ghost use Rattle.md_store_bodies.specs.Store.{IsPassOf, all_lanes, front_in, room_of, start_of};

use crate::pass::StorePass;
use crate::settling::settle;
use md_history::{Contents, Front};
use md_rule::{Ended, Field};
use md_store_law::{FieldWords, StoreTheory, gather, read_off_from, read_off_maps_from};
use md_store_layout::lay_living;
use std::alloc::{AllocError, Global};

// The words of a field that has ended, which are read where they stand.
#[derive(Drop)]
struct EndedWords {
    field: Ended<StoreTheory>,
}

impl FieldWords for EndedWords {
    ghost words = { λ w. w.field.words };

    #[inline]
    fn word(&self, place: u32) -> u64 {
        self.field.word(place as usize)
    }
}

// Settles what was left open, and ends the field.
fn ended(field: Field<StoreTheory>, mut pass: StorePass) -> (EndedWords, Front<StorePass>)
    requires of { IsPassOf field pass }
    requires all { (front_in pass).lanes ≡ all_lanes field.origin.shape }
    ensures { EndsField field pass result.0.field.words result.1 }
{
    settle(&field, &mut pass.pass);
    let front = Front::of(&pass);
    let StorePass { pass, .. } = pass;
    let words = EndedWords {
        field: field.end(pass),
    };
    (words, front)
}

// Ends the field, and gives its contents.
pub(crate) fn contents(
    field: Field<StoreTheory>,
    alloc: Global,
    pass: StorePass,
) -> Result<(Contents, Front<StorePass>), AllocError>
    requires of { IsPassOf field pass }
    requires all { (front_in pass).lanes ≡ all_lanes field.origin.shape }
    ensures { IfOk result (λ r. HasEnded (start_of field) (front_in pass) (front_in r.1) r.0) }
{
    let shape = *field.shape();
    let (words, front) = ended(field, pass);
    let contents = read_off_from(alloc, &shape, &words)?;
    Ok((contents, front))
}

// Ends the field, and gives its maps from a number on.
pub(crate) fn maps_from(
    field: Field<StoreTheory>,
    alloc: Global,
    pass: StorePass,
    first: u32,
) -> Result<(Contents, Front<StorePass>), AllocError>
    requires of { IsPassOf field pass }
    requires all { (front_in pass).lanes ≡ all_lanes field.origin.shape }
    ensures settled { IfOk result (λ r.
        SettlesFrom (start_of field) (front_in pass) (front_in r.1)) }
    ensures maps { IfOk result (λ r.
        MapsFrom first r.0 (replay_of (start_of field) (front_in r.1))) }
    ensures numbers { IfOk result (λ r. HaveSameNumbers r.0 (start_of field)) }
{
    let shape = *field.shape();
    let (words, front) = ended(field, pass);
    let contents = read_off_maps_from(alloc, &shape, &words, first)?;
    Ok((contents, front))
}

// Ends the field, and opens one on its contents, of the same shape but for its base nodes: it has
// as many as the contents need. What lives is gathered from the words where they stand. Then they
// are freed, or the new ones are laid in their memory.
pub(crate) fn renewed(
    field: Field<StoreTheory>,
    alloc: Global,
    pass: StorePass,
) -> Result<(Field<StoreTheory>, StorePass, Front<StorePass>), AllocError>
    requires of { IsPassOf field pass }
    requires all { (front_in pass).lanes ≡ all_lanes field.origin.shape }
    requires room { HasRoom (start_of field) (room_of field.origin.shape) (front_in pass) }
    ensures settled { IfOk result (λ r.
        SettlesFrom (start_of field) (front_in pass) (front_in r.2)) }
    ensures renews { IfOk result (λ r.
        Renews field r.0 r.1 (replay_of (start_of field) (front_in r.2))) }
{
    let shape = *field.shape();
    let (words, front) = ended(field, pass);
    let living = gather(alloc, &shape, &words)?;
    let memory = words.field.into_memory(alloc);
    let (fresh, row) = lay_living(memory, &shape, living)?;
    let (renewed, first) = Field::open(alloc, fresh, row)?;
    Ok((renewed, StorePass::of(first), front))
}
