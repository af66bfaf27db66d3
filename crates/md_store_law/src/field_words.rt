//! The words of a field, wherever they stand.

ghost use Rattle.std.specs.Prelude.{◌≡◌, ◌<◌, List, ℕ, length, slice_index};

/// Words that can be read one at a time: those of a field, in a list or where they stood when it
/// ended.
pub trait FieldWords {
    /// The words, in order.
    ghost words: { Self → List ℕ };

    /// The word at a place, which is below the number of words. Constant time.
    fn word(&self, place: u32) -> u64
        requires { place < length (words self.now) }
        ensures { result ≡ slice_index (words self.now) place };
}

impl FieldWords for &[u64] {
    ghost words = { λ s. s.now };

    #[inline]
    fn word(&self, place: u32) -> u64 {
        self[place as usize]
    }
}
