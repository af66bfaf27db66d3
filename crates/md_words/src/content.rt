//! What a counted word holds.

ghost use Rattle.std.specs.Prelude.{◌≡◌, ◌^◌, ◌<◌, ◌↔◌, IsTrue, IsNone, IfSome};

/// What a counted word holds: the value is its high 32 bits, the count its low 32 bits.
///
/// With an even count the value names a node and a mark. With an odd count it names the slot of a
/// descriptor that stands in the word.
#[derive(Clone, Copy, Debug, PartialEq, Eq)]
pub struct Content {
    pub value: u32,
    pub count: u32,
}

/// A slot of a descriptor.
#[derive(Clone, Copy, Debug, PartialEq, Eq)]
pub struct Spot {
    pub desc: u32,
    pub slot: u8,
}

#[tactic(auto, unfolding(crate::specs::Content::value_of, crate::specs::Content::count_of, crate::specs::Content::counted_word, crate::specs::Content::is_even, crate::specs::Content::spot_value, crate::specs::Content::spot_of))]
impl Content {
    ghost use Rattle.md_words.specs.Content.{content_of, word_of, is_even, spot_value, spot_in};

    /// The content of a word. `word` is its inverse.
    pub fn of(word: u64) -> Content
        ensures parts { result ≡ content_of word }
        ensures inverse { word_of result ≡ word }
    {
        Content {
            value: (word >> 32) as u32,
            count: (word & 0xffff_ffff) as u32,
        }
    }

    /// The word of this content, `value * 2^32 + count`. `of` is its inverse.
    pub fn word(self) -> u64
        ensures whole { result ≡ word_of self }
        ensures inverse { content_of result ≡ self }
    {
        (self.value as u64) << 32 | self.count as u64
    }

    /// The slot that stands in the word. It is None exactly where the count is even.
    pub fn stands(self) -> Option<Spot>
        ensures spot { result ≡ spot_in self }
        ensures even { IsNone result ↔ IsTrue (is_even self.count) }
        ensures value { IfSome result (λ spot. spot_value spot ≡ self.value) }
        ensures below { IfSome result (λ spot. spot.desc < 2 ^ 24) }
    {
        if self.count % 2 == 0 {
            return None;
        }
        Some(Spot {
            desc: self.value / 256,
            slot: (self.value % 256) as u8,
        })
    }
}

#[tactic(auto, unfolding(crate::specs::Content::spot_value, crate::specs::Content::spot_of))]
impl Spot {
    ghost use Rattle.md_words.specs.Content.{spot_value, spot_of};

    /// The value of a counted word in which this slot stands: `desc * 256 + slot`. The descriptor
    /// is below 2^24, so that the value fits.
    pub fn value(self) -> u32
        requires { self.desc < 2 ^ 24 }
        ensures whole { result ≡ spot_value self }
        ensures inverse { spot_of result ≡ self }
    {
        self.desc * 256 + self.slot as u32
    }
}
