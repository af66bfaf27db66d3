//! The nine steps.
//!
//! A step that is said to be one atomic load, store or exchange is that where the field has several
//! lanes. Where it has one, the step reads or writes a private word of the pass, which no other
//! thread can reach, and makes one load of the table.

ghost use Rattle.std.specs.Prelude.{◌≡◌, ◌+◌, ◌<◌, ◌≤◌, MatchResult, IfOk};
ghost use Rattle.std.specs.List.{Contains};
ghost use Rattle.md_words.specs.declared.limits.TheConstants.{SET};
ghost use Rattle.md_words.specs.Content.{word_of};
ghost use Rattle.md_words.specs.Layout.{address, desc_count, words_of};
ghost use Rattle.md_words.specs.Place.{desc_status};
ghost use Rattle.md_words.specs.Status.{serial_of};
ghost use Rattle.md_machine.specs.declared.step.TheConstants.{LAST_COUNT};
ghost use Rattle.md_machine.specs.Machine.{IsLive};
ghost use Rattle.md_machine.specs.Event.{load, store, install, exchange, ready};
ghost use Rattle.md_machine.specs.Event.{commit, abort, uninstall, start};
ghost use Rattle.md_rule.specs.Entering.{EnteredBy, MayBecomeReady};
ghost use Rattle.md_rule.specs.InHand.{HoldsUnready};
ghost use Rattle.md_rule.specs.Kept.{IsNoNextLeft, IsReached, StoredNoneLeft};
ghost use Rattle.md_rule.specs.Private.{HasPrivateWords};
ghost use Rattle.md_rule_lanes.specs.Shares.{after_restart, after_slot, share_at};
ghost use Rattle.md_rule.specs.Steps.{Exchanged, May, Stepped, SteppedFrom};
ghost use Rattle.md_rule.specs.Views.{IsOf};

use crate::certifying::Certifying;
use crate::field::Field;
use crate::known::Known;
use crate::pass::Pass;
use crate::words::{exchange_word, load_word, store_word};
use atomic_table::Seat;
use md_machine::Theory;
use md_rule_lanes::{count_slot, exchanged, restart_lane, statuses};
use md_words::{Content, Spot};
use std::marker::Brand;
use std::snapshot::Snapshot;

impl<T: Theory> Pass<T> {
    /// What a word holds. The word is one of the field. One atomic load. It has no refusal, and
    /// takes no memory.
    pub fn load(&mut self, field: &Field<T>, word: u32) -> u64
        requires { IsOf self.old field.now × (word < words_of field.now.origin.shape) }
        ensures same { self.new ≡ record self.old { view = self.new.view } }
        ensures step { SteppedFrom T.meaning field.now.origin (λ pass. load pass word) word result
            self.old.view self.new.view }
    {
        load_word::<Brand, T, _>(
            &mut self.seat,
            &self.private,
            field,
            word,
            Snapshot::of(&word),
        )
    }

    /// Writes a word that nobody else relies on: of an own node that no resolution places, or of a
    /// read or a slot of the transaction in hand, which isn't ready (`MayStore`). A slot's word and
    /// old content are stored only before the slot is installed, a slot's new value is below 2^32,
    /// and the count of a next word rises by 2.
    ///
    /// One atomic store. It has no refusal.
    pub fn store(&mut self, field: &Field<T>, word: u32, value: u64)
        requires field { IsOf self.old field.now
            × (word < words_of field.now.origin.shape) }
        requires may { May T.meaning field.now.origin (λ pass. store pass word value)
            self.old.view }
        ensures same { self.new ≡ record self.old { view = self.new.view } }
        ensures step { Stepped T.meaning field.now.origin (λ pass. store pass word value)
            self.old.view self.new.view }
    {
        let about = Snapshot::of(&(word, value));
        store_word::<Brand, T, _>(&mut self.seat, &mut self.private, field, word, value, about);
    }

    /// Puts the descriptor in hand, at one of its slots, into a counted word that may be changed:
    /// the install of a critical exchange in Cai, Wen and Scott's transactions. The slot has this
    /// word and this old content, whose count is even and at most `LAST_COUNT`; the attempt isn't
    /// ready. A next word is of a node that is placed in every resolution, or of an own one that
    /// was taken (`MayInstall`).
    ///
    /// Ok exactly if the word held the expected content, which is changed then. `Err` has what it
    /// held in its place; then nothing is changed. The count is one more then. One atomic exchange;
    /// a step that wins counts the slot.
    pub fn install(
        &mut self,
        field: &Field<T>,
        word: u32,
        from: Content,
        to: Spot,
    ) -> Result<(), u64>
        requires field { IsOf self.old field.now × (word < words_of field.now.origin.shape) }
        requires fits { (from.count ≤ LAST_COUNT) × (to.desc < desc_count field.now.origin.shape)
            × (to.slot < SET) }
        requires taken { IsNoNextLeft self.old word }
        requires may { May T.meaning field.now.origin (λ pass. install pass word (word_of from) to)
            self.old.view }
        ensures same { self.new
            ≡ record self.old { view = self.new.view; shares = self.new.shares } }
        ensures shares { MatchResult result
            (λ _. self.new.shares ≡ after_slot self.old.shares to)
            (λ _. self.new.shares ≡ self.old.shares) }
        ensures step { Exchanged T.meaning field.now.origin
            (λ pass. install pass word (word_of from) to) word (word_of from) result
            self.old.view self.new.view }
    {
        put::<T>(&mut self.seat, &mut self.private, field, word, from, to)?;
        count_slot(&mut self.shares, to);
        Ok(())
    }

    /// Changes a counted word at once by a tidy change of the theory, which leaves the state as it
    /// is, as an unlink of a removed node does or a move of a lagging tail. The old count is even
    /// and leaves room, and the next words on which the change rests were met (`MayExchange`).
    ///
    /// Ok exactly if the word held the expected content, which is changed then. `Err` has what it
    /// held in its place; then nothing is changed. The count is two more then. One atomic exchange.
    pub fn exchange(
        &mut self,
        field: &Field<T>,
        word: u32,
        from: Content,
        to: u32,
    ) -> Result<(), u64>
        requires field { IsOf self.old field.now
            × (word < words_of field.now.origin.shape) }
        requires fits { from.count ≤ LAST_COUNT }
        requires may { May T.meaning field.now.origin (λ pass. exchange pass word (word_of from) to)
            self.old.view }
        ensures same { self.new ≡ record self.old { view = self.new.view } }
        ensures step { Exchanged T.meaning field.now.origin
            (λ pass. exchange pass word (word_of from) to) word (word_of from) result
            self.old.view self.new.view }
    {
        let exchanged = exchanged(from, to);
        let about = Snapshot::of(&(from, to));
        exchange_word::<Brand, T, _>(
            &mut self.seat,
            &mut self.private,
            field,
            word,
            from.word(),
            exchanged,
            about,
        )
    }

    /// Makes the transaction in hand ready: it joins the history, by some certificates of its acts.
    /// In Cai, Wen and Scott's transactions this sets the descriptor in progress. Its first `reads`
    /// reads are stored and were met, and it stored to no node that wasn't taken, or was given
    /// back.
    ///
    /// The caller picks of which kind the certificates are: `K` says it, and may speak of `about`,
    /// which has no bytes. It shows certificates of that kind, and after Ok the new entry, the last
    /// one that the pass has seen, has certificates of that kind.
    ///
    /// Ok exactly if the word held the expected content, which is changed then. `Err` has what it
    /// held in its place; then nothing is changed. One atomic exchange.
    pub fn ready<K: Certifying, A>(
        &mut self,
        field: &Field<T>,
        desc: u32,
        from: u64,
        reads: u8,
        about: Snapshot<A>,
    ) -> Result<(), u64>
        requires field { IsOf self.old field.now
            × (desc < desc_count field.now.origin.shape) }
        requires hand { HoldsUnready self.old.view desc from }
        requires taken { StoredNoneLeft self.old }
        requires may { MayBecomeReady T.meaning field.now.origin K.by reads self.old.view }
        ensures same { self.new ≡ record self.old { view = self.new.view } }
        ensures step { Exchanged T.meaning field.now.origin (λ pass. ready pass reads)
            (address field.now.origin.shape (desc_status desc)) from result
            self.old.view self.new.view }
        ensures by { IfOk result (λ _. EnteredBy K.by self.new.view) }
    {
        drop(about);
        let word = field.shape().status(desc);
        let about = Snapshot::of(&(desc, reads));
        exchange_word::<Brand, T, _>(
            &mut self.seat,
            &mut self.private,
            field,
            word,
            from,
            statuses::ready(from, reads),
            about,
        )
    }

    /// Commits an attempt that is in progress, of any pass. This is the last step of its
    /// validation. `from` is the status word of the attempt, which the pass has met. Since then the
    /// pass has loaded each read of the attempt, or has stored it itself, and found that each
    /// stands.
    ///
    /// Ok exactly if the word held the expected content, which is changed then. `Err` has what it
    /// held in its place; then nothing is changed. One atomic exchange.
    pub fn commit(&mut self, field: &Field<T>, desc: u32, from: u64) -> Result<(), u64>
        requires field { IsOf self.old field.now
            × (desc < desc_count field.now.origin.shape) }
        requires may { May T.meaning field.now.origin (λ pass. commit pass desc from)
            self.old.view }
        ensures same { self.new ≡ record self.old { view = self.new.view } }
        ensures step { Exchanged T.meaning field.now.origin (λ pass. commit pass desc from)
            (address field.now.origin.shape (desc_status desc)) from result
            self.old.view self.new.view }
    {
        let word = field.shape().status(desc);
        let committed = statuses::committed(from);
        let about = Snapshot::of(&(desc, from));
        exchange_word::<Brand, T, _>(
            &mut self.seat,
            &mut self.private,
            field,
            word,
            from,
            committed,
            about,
        )
    }

    /// Aborts an attempt of any pass. The attempt isn't ready; or it is in progress, and the pass
    /// has found a read of it that doesn't stand, after it had met the status `from`. The pass
    /// reaches the descriptor in one of two ways: it is that of one of its own lanes, of which an
    /// attempt was taken (`set_tries_taken`), or a step of the pass found it in a counted word.
    ///
    /// Ok exactly if the word held the expected content, which is changed then. `Err` has what it
    /// held in its place; then nothing is changed. One atomic exchange.
    pub fn abort(&mut self, field: &Field<T>, desc: u32, from: u64) -> Result<(), u64>
        requires field { IsOf self.old field.now
            × (desc < desc_count field.now.origin.shape) }
        requires reached { IsReached self.old desc }
        requires may { May T.meaning field.now.origin (λ pass. abort pass desc from) self.old.view }
        ensures same { self.new ≡ record self.old { view = self.new.view } }
        ensures step { Exchanged T.meaning field.now.origin (λ pass. abort pass desc from)
            (address field.now.origin.shape (desc_status desc)) from result
            self.old.view self.new.view }
    {
        let word = field.shape().status(desc);
        let aborted = statuses::aborted(from);
        let about = Snapshot::of(&(desc, from));
        exchange_word::<Brand, T, _>(
            &mut self.seat,
            &mut self.private,
            field,
            word,
            from,
            aborted,
            about,
        )
    }

    /// Takes a descriptor, of any pass, out of a counted word. Its attempt is decided. `value` is
    /// what the word then holds: the slot's new value if the attempt was committed, and the value
    /// of its old content if it was aborted. If the descriptor is an own one, the pass has met its
    /// present attempt decided. Otherwise the pass has met the content, a status, the content
    /// again, the slot, and the decided status, in this order (`MayUninstall`).
    ///
    /// Ok exactly if the word held the expected content, which is changed then. `Err` has what it
    /// held in its place; then nothing is changed. The count is one more then. One atomic exchange.
    pub fn uninstall(
        &mut self,
        field: &Field<T>,
        word: u32,
        from: Content,
        value: u32,
    ) -> Result<(), u64>
        requires field { IsOf self.old field.now
            × (word < words_of field.now.origin.shape) }
        requires fits { from.count ≤ LAST_COUNT + 1 }
        requires may { May T.meaning field.now.origin
            (λ pass. uninstall pass word (word_of from) value) self.old.view }
        ensures same { self.new ≡ record self.old { view = self.new.view } }
        ensures step { Exchanged T.meaning field.now.origin
            (λ pass. uninstall pass word (word_of from) value) word (word_of from) result
            self.old.view self.new.view }
    {
        let uninstalled = Content {
            value,
            count: from.count + 1,
        };
        let about = Snapshot::of(&(from, value));
        exchange_word::<Brand, T, _>(
            &mut self.seat,
            &mut self.private,
            field,
            word,
            from.word(),
            uninstalled.word(),
            about,
        )
    }

    /// Begins the next attempt of an own descriptor, which was taken (`set_tries_taken`). Nothing
    /// is in hand; the last attempt, of the status `from`, is decided, its fate is known, and it
    /// stands in no word. The serial rises by one.
    ///
    /// One atomic store. It has no refusal. Descriptors that serve one attempt after another are
    /// this project's own.
    pub fn start(&mut self, field: &Field<T>, desc: u32, from: u64)
        requires field { IsOf self.old field.now }
        requires own { Contains self.old.view.lanes desc }
        requires taken { serial_of from + 1 < (share_at self.old.shares desc).tries_taken }
        requires may { May T.meaning field.now.origin (λ pass. start pass desc from) self.old.view }
        ensures same { self.new ≡ record self.old {
          view = self.new.view;
          shares = after_restart self.old.shares desc;
        } }
        ensures step { Stepped T.meaning field.now.origin (λ pass. start pass desc from)
            self.old.view self.new.view }
    {
        let word = self.shape().status(desc);
        let about = Snapshot::of(&(desc, from));
        let started = statuses::started(from);
        store_word::<Brand, T, _>(
            &mut self.seat,
            &mut self.private,
            field,
            word,
            started,
            about,
        );
        restart_lane(&mut self.shares, desc);
    }
}

// Puts a slot of the descriptor in hand into a word.
fn put<T: Theory>(
    seat: &mut Seat<(), Known>,
    private: &mut Option<Vec<u64>>,
    field: &Field<T>,
    word: u32,
    from: Content,
    to: Spot,
) -> Result<(), u64>
    requires field { (seat.old.table_id ≡ field.now.table)
        × (word < words_of field.now.origin.shape) }
    requires private { HasPrivateWords field.now.origin.shape private.old seat.old.me.0 }
    requires live { IsLive seat.old.me.0.view }
    requires fits { (from.count ≤ LAST_COUNT) × (to.desc < desc_count field.now.origin.shape) }
    requires may { May T.meaning field.now.origin (λ pass. install pass word (word_of from) to)
        seat.old.me.0.view }
    ensures field { seat.new.table_id ≡ seat.old.table_id }
    ensures same { (seat.new.me.0.view.lanes ≡ seat.old.me.0.view.lanes)
        × (seat.new.me.1 ≡ seat.old.me.1) }
    ensures private { HasPrivateWords field.now.origin.shape private.new seat.new.me.0 }
    ensures step { Exchanged T.meaning field.now.origin
        (λ pass. install pass word (word_of from) to) word (word_of from) result
        seat.old.me.0.view seat.new.me.0.view }
{
    let installed = Content {
        value: to.value(),
        count: from.count + 1,
    };
    let about = Snapshot::of(&(from, to));
    exchange_word::<Brand, T, _>(
        seat,
        private,
        field,
        word,
        from.word(),
        installed.word(),
        about,
    )
}
