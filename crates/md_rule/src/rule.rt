//! The rule of the table, and what a step tells.

ghost use Rattle.std.specs.Prelude.{ℕ};
ghost use Rattle.md_machine.specs.declared.pass.PassView.{PassView};
ghost use Rattle.md_machine.specs.Event.{first_pass};
ghost use Rattle.md_rule.specs.Rule.{Shows};

use crate::known::Known;
use atomic_table::{Join, Play, Split, TableRule};
use md_machine::Theory;
use md_words::Shape;
use std::marker::{Brand, PhantomData};
use std::snapshot::Snapshot;

/// What the table is told when it is made: the shape, and the words of the opening. The words have
/// no bytes here.
#[derive(Drop)]
pub struct Key {
    pub shape: Shape,
    pub words: Snapshot<Vec<u64>>,
}

/// The words and the views of all seats show a machine of the field.
pub struct Ruled<T> {
    theory: PhantomData<T>,
}

impl<T: Theory> TableRule<(), Known, Key> for Ruled<T> {
    ghost use Rattle.md_rule.specs.Private.{first_known};
    ghost use Rattle.md_rule.specs.Rule.{Shows};

    ghost holds = { λ k. Shows T.meaning
        (record { shape = k.shape; words = k.words.value.items }) };

    ghost first = { λ k. first_known k.shape k.words.value };
}

/// What a step tells of the content that it found, and of what the pass knew before and knows
/// after. Each call picks it.
pub trait Telling {
    ghost use Rattle.std.specs.Prelude.{ℕ};
    ghost use Rattle.md_machine.specs.declared.pass.PassView.{PassView};

    ghost tells: { ℕ → PassView → PassView → Type 0 };
}

impl Telling for Brand {
    ghost tells = { λ found before after. Unit {0} };
}

pub(crate) struct Tells<K> {
    telling: PhantomData<K>,
}

impl<K: Telling> Play<(), Known> for Tells<K> {
    ghost use Rattle.std.specs.Prelude.{◌≡◌};

    ghost then = { λ step me found now. K.tells found me.0.view now.0.view
        × (now.0.view.lanes ≡ me.0.view.lanes) × (now.0.private ≡ me.0.private) × (now.1 ≡ me.1) };
}

/// How the view of a pass is split. Each call picks it.
pub trait Halving {
    ghost use Rattle.md_machine.specs.declared.pass.PassView.{PassView};

    ghost kept: { PassView → PassView };

    ghost given: { PassView → PassView };
}

impl Halving for Brand {
    ghost kept = { λ p. p };

    ghost given = { λ p. p };
}

/// How the views of two passes are joined. Each call picks it.
pub trait Joining {
    ghost use Rattle.md_machine.specs.declared.pass.PassView.{PassView};

    ghost joined: { PassView → PassView → PassView };
}

impl Joining for Brand {
    ghost joined = { λ p q. p };
}

pub(crate) struct Halves<K> {
    halving: PhantomData<K>,
}

impl<K: Halving> Split<Known> for Halves<K> {
    ghost use Rattle.std.specs.Prelude.{None};

    ghost left = { λ k. record k { view = K.kept k.view } };

    ghost right = { λ k. record { view = K.given k.view; joined = None; private = None } };
}

pub(crate) struct Joins<K> {
    joining: PhantomData<K>,
}

impl<K: Joining> Join<Known> for Joins<K> {
    ghost use Rattle.std.specs.Prelude.{None, Some};
    ghost use Rattle.md_machine.specs.events.SplitJoin.{spent};

    ghost both = { λ p q. record {
      view = K.joined p.view q.view;
      joined = Some (record { one = p.view; other = q.view });
      private = p.private;
    } };

    ghost spent = { record { view = spent; joined = None; private = None } };
}

/// What a load that changes nothing tells of its seat. Each call picks it.
pub trait Looking {
    ghost use Rattle.md_rule.specs.declared.known.Known.{Known};

    ghost tells: { Known → Type 0 };
}

impl Looking for Brand {
    ghost tells = { λ k. Unit {0} };
}

pub(crate) struct Looks<K> {
    looking: PhantomData<K>,
}

impl<K: Looking> Play<(), Known> for Looks<K> {
    ghost use Rattle.std.specs.Prelude.{◌≡◌};

    ghost then = { λ step me found now. (now ≡ me) × K.tells me.0 };
}

/// How a step on private words changes what a pass knows. Each call picks it.
pub trait Following {
    ghost use Rattle.md_rule.specs.declared.known.Known.{Known};

    ghost follows: { Known → Known → Type 0 };
}

impl Following for Brand {
    ghost follows = { λ k now. Unit {0} };
}

pub(crate) struct Follows<K> {
    following: PhantomData<K>,
}

impl<K: Following> Play<(), Known> for Follows<K> {
    ghost use Rattle.std.specs.Prelude.{◌≡◌};

    ghost then = { λ step me found now. K.follows me.0 now.0 × (now.1 ≡ me.1) };
}
