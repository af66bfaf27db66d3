//! The end of a field.

ghost use Rattle.std.specs.Prelude.{◌≡◌, ◌≢◌, ◌<◌, [], IfOk, length, slice_index};
ghost use Rattle.md_rule.specs.Closing.{IsLast, LeavesReplay, MayClose};
ghost use Rattle.md_rule.specs.Views.{IsOf};

use crate::field::Field;
use crate::pass::Pass;
use atomic_table::Closed as TableClosed;
use md_history::Front;
use md_machine::Theory;
use std::alloc::{AllocError, Global};
use std::marker::Model;

/// A field that has ended: no pass can step on it any more, and its words can be read where they
/// stood. Contracts see the words, and the last pass as it stood. The memory is freed when this is
/// dropped.
pub struct Ended<T: Theory> {
    table: TableClosed<(), Global>,
    private: Option<Vec<u64>>,
    front: Front<Pass<T>>,
}

impl<T: Theory> Model for Ended<T> {
    ghost use Rattle.std.specs.Prelude.{◌≡◌, ◌≢◌, IfNone, IfSome, length};
    ghost use Rattle.std.specs.Mem.Slots.{slots_items, slots_len, IsFull};
    ghost use Rattle.md_words.specs.Layout.{words_of};
    ghost use Rattle.md_rule.specs.Private.{words_left};
    ghost use Rattle.md_rule.specs.Views.{EndedView};

    ghost Value = { EndedView };

    ghost view = { λ e. record {
      words = words_left e.private (slots_items e.table.words);
      front = e.front;
    } };

    // The words are private exactly if there is one lane.
    ghost invariant = { λ e. IsFull e.table.words × (slots_len e.table.slots ≡ 0)
        × IfSome e.private (λ ws. (e.front.shape.lanes ≡ 1)
        × (length ws.items ≡ words_of e.front.shape))
        × IfNone e.private (e.front.shape.lanes ≢ 1) };
}

/// What a field leaves when it is closed.
#[derive(Drop)]
pub struct Closed<T: Theory> {
    /// Its words: a valid heap in which every count is even.
    pub words: Vec<u64>,
    /// The last pass as it stood. It has no bytes.
    pub front: Front<Pass<T>>,
}

impl<T: Theory> Field<T> {
    /// Ends the field, and leaves its words where they stand: a valid heap in which every count is
    /// even, whose state is the replay of the committed transactions. The pass is of the field,
    /// holds all its lanes and knows every fate, and no descriptor stands in a word.
    ///
    /// Constant time. It takes no memory, and no step of the field is made: no other pass is live.
    /// With one lane the words come with the pass.
    pub fn end(self, pass: Pass<T>) -> Ended<T>
        requires field { IsOf pass self }
        requires may { MayClose T.meaning self.origin pass.view }
        ensures last { IsLast T.meaning self.origin pass.view result.words }
        ensures replayed { LeavesReplay T.meaning self.origin pass.view result.words }
        ensures front { result.front ≡ pass }
    {
        let front = Front::of(&pass);
        let (seat, _, _, private) = pass.into_parts();
        let table = self.into_table().close_with(seat);
        Ended {
            table,
            private,
            front,
        }
    }

    /// Ends the field, and gives its words: a valid heap, whose state is the replay of the
    /// committed transactions. The pass is of the field, holds all its lanes and knows every fate,
    /// and no descriptor stands in a word.
    ///
    /// `AllocError` if memory runs out; then the field and the pass have ended too. Takes time
    /// linear in the words, which are copied: `end` lets them be read without a copy. No step of
    /// the field is made: no other pass is live.
    pub fn close(self, alloc: Global, pass: Pass<T>) -> Result<Closed<T>, AllocError>
        requires field { IsOf pass self }
        requires may { MayClose T.meaning self.origin pass.view }
        ensures last { IfOk result (λ c. IsLast T.meaning self.origin pass.view c.words.items) }
        ensures replayed { IfOk result (λ c.
            LeavesReplay T.meaning self.origin pass.view c.words.items) }
        ensures front { IfOk result (λ c. c.front ≡ pass) }
    {
        let ended = self.end(pass);
        let words = ended.copied(alloc)?;
        let front = ended.into_front();
        Ok(Closed { words, front })
    }
}

impl<T: Theory> Ended<T> {
    /// The word at a place, which is below the number of words. Constant time.
    #[inline]
    pub fn word(&self, place: usize) -> u64
        requires { place < length self.now.words }
        ensures { result ≡ slice_index self.now.words place }
    {
        match &self.private {
            Some(words) => words[place],
            None => self.table.word(place),
        }
    }

    // How many words there are.
    fn count(&self) -> usize
        ensures { result ≡ length self.now.words }
    {
        match &self.private {
            Some(words) => words.len(),
            None => self.table.words.len(),
        }
    }

    // A copy of the words. The list is made at its full length first, so that the loop over the
    // words has no test of the room in it.
    fn copied(&self, alloc: Global) -> Result<Vec<u64>, AllocError>
        ensures { IfOk result (λ words. words.items ≡ self.now.words) }
    {
        let mut words = vec![in alloc; 0; self.count()]?;
        copy_words(self, &mut words);
        Ok(words)
    }

    /// A list whose memory can be used again: the words of a field with one lane, as they stand.
    /// The memory of other words is freed, and the list is empty. Constant time.
    pub fn into_memory(self, alloc: Global) -> Vec<u64>
        ensures one { self.front.shape.lanes ≡ 1 → result.items ≡ self.words }
        ensures several { self.front.shape.lanes ≢ 1 → result.items ≡ [] }
    {
        let Ended {
            table,
            private,
            front: _,
        } = self;
        table.free();
        match private {
            Some(words) => words,
            None => Vec::new(alloc),
        }
    }

    // Frees the words.
    fn into_front(self) -> Front<Pass<T>>
        ensures { result ≡ self.front }
    {
        let Ended {
            table,
            private: _,
            front,
        } = self;
        table.free();
        front
    }
}

impl<T: Theory> Drop for Ended<T> {
    fn drop(self) {
        let Ended {
            table,
            private: _,
            front: _,
        } = self;
        table.free();
    }
}

// Stores the words of a field that has ended into a list of as many words, in order.
fn copy_words<T: Theory>(ended: &Ended<T>, words: &mut [u64])
    requires { length words.old ≡ length ended.now.words }
    ensures { words.new ≡ ended.now.words }
{
    for place in 0..words.len() {
        words[place] = ended.word(place);
    }
}
