//! The words of a field with one lane, which its only pass keeps.

ghost use Rattle.std.specs.Prelude.{◌≡◌, ◌==◌, ◌<◌, Some, None, length, slice_index, slice_set};
ghost use Rattle.std.specs.Prelude.{if◌then◌else◌};
ghost use prog.Atomic.{either};

use md_words::Shape;

/// The words that a pass has: those of a field with one lane, and otherwise none.
pub fn own_words(shape: &Shape, words: Vec<u64>) -> Option<Vec<u64>>
    ensures { result ≡ (if shape.now.lanes == 1 then Some words else None) }
{
    if shape.lanes == 1 { Some(words) } else { None }
}

/// What the private word at a place holds.
#[inline]
pub fn load_private(words: &[u64], place: u32) -> u64
    requires { place < length words.now }
    ensures { result ≡ slice_index words.now place }
{
    words[place as usize]
}

/// Puts a number into a private word.
#[inline]
pub fn store_private(words: &mut [u64], word: u32, value: u64)
    requires { word < length words.old }
    ensures { words.new ≡ slice_set words.old word value }
{
    words[word as usize] = value;
}

/// Puts a number into a private word that holds the expected one, and answers what the word held.
pub fn exchange_private(words: &mut [u64], word: u32, from: u64, to: u64) -> u64
    requires { word < length words.old }
    ensures found { result ≡ slice_index words.old word }
    ensures words { words.new ≡ slice_set words.old word (either (result == from) to result) }
{
    let found = words[word as usize];
    if found == from {
        words[word as usize] = to;
    }
    found
}
