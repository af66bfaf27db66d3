//! The bits that tell which prices have depth.

ghost use Rattle.std.specs.Prelude.{◌≡◌, ◌≢◌, ◌≤◌, ◌<◌, ◌-◌, None, IfOk, IfErr};
ghost use Rattle.std.specs.Int.{leading_zeros, trailing_zeros, w64};
ghost use Rattle.md_history.specs.Playing.{PlaysPart};
ghost use Rattle.md_match.specs.Scripts.{with_bit, without_bit, key_of, bit_of, summary_of, word_of, set_bit, put_word, clear_bit, open_level, close_level};

use crate::maps::{MATCH_MAPS, PRICE_BITS};
use md_book::MAX_PRICE;
use md_history::{Stop, TxCalls};

/// The key of a level's word.
fn key_of(level: u64) -> u64
    requires { level < 4096 }
    ensures { result ≡ key_of level }
{
    16 * (level / MAX_PRICE as u64) + level % MAX_PRICE as u64 / 64
}

/// A level's bit in its word.
fn bit_of(level: u64) -> u32
    ensures is { result ≡ bit_of level }
    ensures low { result < 64 }
{
    (level % MAX_PRICE as u64 % 64) as u32
}

/// The key of the summary of a level's side.
fn summary_of(level: u64) -> u64
    ensures { result ≡ summary_of level }
{
    32 + level / MAX_PRICE as u64
}

/// The bit of a level's word in the summary of its side.
fn word_of(level: u64) -> u32
    ensures is { result ≡ word_of level }
    ensures low { result < 64 }
{
    (level % MAX_PRICE as u64 / 64) as u32
}

/// Sets a bit of the word at a key. Returns whether the word was 0.
fn set_bit<T: TxCalls>(t: &mut T, key: u64, bit: u32) -> Result<bool, Stop>
    requires low { bit < 64 }
    requires going { T.stop t.old ≡ None }
    requires maps { MATCH_MAPS ≤ T.maps (T.kept t.old) }
    ensures plays { PlaysPart (set_bit key bit) result T.acts T.stop t.old t.new }
    ensures kept { T.kept t.new ≡ T.kept t.old }
{
    let word = t.get(PRICE_BITS, key)?.unwrap_or(0);
    t.put(PRICE_BITS, key, word | 1 << bit)?;
    Ok(word == 0)
}

/// Gives a key a word, or removes it if that is 0. Returns whether it is.
fn put_word<T: TxCalls>(t: &mut T, key: u64, word: u64) -> Result<bool, Stop>
    requires going { T.stop t.old ≡ None }
    requires maps { MATCH_MAPS ≤ T.maps (T.kept t.old) }
    ensures plays { PlaysPart (put_word key word) result T.acts T.stop t.old t.new }
    ensures kept { T.kept t.new ≡ T.kept t.old }
{
    if word == 0 {
        t.remove(PRICE_BITS, key)?;
        return Ok(true);
    }
    t.put(PRICE_BITS, key, word)?;
    Ok(false)
}

/// Clears a bit of the word at a key. Returns whether the word is 0 now.
fn clear_bit<T: TxCalls>(t: &mut T, key: u64, bit: u32) -> Result<bool, Stop>
    requires low { bit < 64 }
    requires going { T.stop t.old ≡ None }
    requires maps { MATCH_MAPS ≤ T.maps (T.kept t.old) }
    ensures plays { PlaysPart (clear_bit key bit) result T.acts T.stop t.old t.new }
    ensures kept { T.kept t.new ≡ T.kept t.old }
{
    let word = t.get(PRICE_BITS, key)?.unwrap_or(0);
    put_word(t, key, word & !(1 << bit))
}

/// Sets the bit of a level that has depth now.
pub(crate) fn open_level<T: TxCalls>(t: &mut T, level: u64) -> Result<(), Stop>
    requires low { level < 4096 }
    requires going { T.stop t.old ≡ None }
    requires maps { MATCH_MAPS ≤ T.maps (T.kept t.old) }
    ensures plays { PlaysPart (open_level level) result T.acts T.stop t.old t.new }
    ensures kept { T.kept t.new ≡ T.kept t.old }
{
    let was_empty = set_bit(t, key_of(level), bit_of(level))?;
    if !was_empty {
        return Ok(());
    }
    set_bit(t, summary_of(level), word_of(level))?;
    Ok(())
}

/// Clears the bit of a level that has no depth any more.
pub(crate) fn close_level<T: TxCalls>(t: &mut T, level: u64) -> Result<(), Stop>
    requires low { level < 4096 }
    requires going { T.stop t.old ≡ None }
    requires maps { MATCH_MAPS ≤ T.maps (T.kept t.old) }
    ensures plays { PlaysPart (close_level level) result T.acts T.stop t.old t.new }
    ensures kept { T.kept t.new ≡ T.kept t.old }
{
    let is_empty = clear_bit(t, key_of(level), bit_of(level))?;
    if !is_empty {
        return Ok(());
    }
    clear_bit(t, summary_of(level), word_of(level))?;
    Ok(())
}
