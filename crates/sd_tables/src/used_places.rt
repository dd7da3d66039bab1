//! Which of a table's 512 places are used, a bit for each.
ghost use Rattle.std.specs.Prelude.{◌≡◌, ℕ, ◌+◌, ◌/◌, ◌<◌, ◌≤◌, ◌==◌, ◌||◌, ◌&&◌, not, true, false, IfSome, IfNone};
ghost use Rattle.sd_tables.specs.Radix.{is_used, IsNextUsed, IsNextInWord, IsFirstBitOf, IsNextBit};
ghost use Rattle.sd_tables.specs.Radix.{IsUsedTo, IsHoleInWord, IsNextClearBit};

/// How many places a table has.
pub(crate) const PLACES: usize = 512;

/// How many places a word has bits for.
const WORD_BITS: usize = 64;

/// How many words the places take.
const WORDS: usize = PLACES / WORD_BITS;

/// The used places of a table: bit b of word w stands for place 64 w + b.
#[derive(Drop)]
pub(crate) struct UsedPlaces {
    words: [u64; WORDS],
}

impl UsedPlaces {
    /// No place is used.
    pub(crate) fn new() -> Self
        ensures { (place : ℕ) → is_used result.words place ≡ false }
    {
        UsedPlaces { words: [0; WORDS] }
    }

    /// Whether a place is used.
    #[inline]
    pub(crate) fn has(&self, place: usize) -> bool
        requires { place < 512 }
        ensures { result ≡ is_used self.now.words place }
    {
        (self.words[place / WORD_BITS] >> (place % WORD_BITS)) & 1 == 1
    }

    /// A place is used from now on.
    #[inline]
    pub(crate) fn add(&mut self, place: usize)
        requires { place < 512 }
        ensures { (other : ℕ)
            → is_used self.new.words other ≡ (other == place || is_used self.old.words other) }
    {
        self.words[place / WORD_BITS] |= 1 << (place % WORD_BITS);
    }

    /// A place isn't used any longer.
    #[inline]
    pub(crate) fn remove(&mut self, place: usize)
        requires { place < 512 }
        ensures { (other : ℕ)
            → is_used self.new.words other ≡ (not (other == place) && is_used self.old.words other) }
    {
        self.words[place / WORD_BITS] &= !(1 << (place % WORD_BITS));
    }

    /// The first used place from one on.
    pub(crate) fn next(&self, from: usize) -> Option<usize>
        requires { from ≤ 512 }
        ensures { IsNextUsed self.now.words from result }
    {
        for word in from / WORD_BITS..WORDS {
            let found = self.next_in_word(word, from);
            if found.is_some() {
                return found;
            }
        }
        None
    }

    /// The first used place from one on, among those of a word.
    fn next_in_word(&self, word: usize, from: usize) -> Option<usize>
        requires within { word < 8 }
        requires reached { from / 64 ≤ word }
        ensures { IsNextInWord self.now.words word from result }
    {
        let low = first_bit_of(word, from);
        let bit = next_bit(self.words[word], low)?;
        Some(word * WORD_BITS + bit)
    }

    /// The place up to which those from one on are used.
    pub(crate) fn used_to(&self, from: usize) -> usize
        requires { from ≤ 512 }
        ensures reached { from ≤ result }
        ensures end { result ≤ 512 }
        ensures used { IsUsedTo self.now.words from result }
    {
        for word in from / WORD_BITS..WORDS {
            let hole = self.hole_in_word(word, from);
            if let Some(place) = hole {
                return place;
            }
        }
        PLACES
    }

    /// The first place from one on that isn't used, among those of a word.
    #[inline]
    fn hole_in_word(&self, word: usize, from: usize) -> Option<usize>
        requires within { word < 8 }
        requires reached { from / 64 ≤ word }
        ensures { IsHoleInWord self.now.words word from result }
    {
        let low = first_bit_of(word, from);
        let bit = next_clear_bit(self.words[word], low)?;
        Some(word * WORD_BITS + bit)
    }
}

/// The first bit of a word whose place isn't before another.
#[inline]
fn first_bit_of(word: usize, from: usize) -> usize
    requires { from / 64 ≤ word }
    ensures within { result < 64 }
    ensures first { IsFirstBitOf word from result }
{
    if word == from / WORD_BITS {
        from % WORD_BITS
    } else {
        0
    }
}

/// The lowest bit of a word that is set, from one on.
#[inline]
fn next_bit(word: u64, from: usize) -> Option<usize>
    requires { from < 64 }
    ensures { IsNextBit word from result }
{
    let rest = word >> from;
    if rest == 0 {
        return None;
    }
    Some(from + rest.trailing_zeros() as usize)
}

/// The lowest bit of a word that isn't set, from one on.
#[inline]
fn next_clear_bit(word: u64, from: usize) -> Option<usize>
    requires { from < 64 }
    ensures { IsNextClearBit word from result }
{
    next_bit(!word, from)
}
