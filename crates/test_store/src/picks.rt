//! Outcomes of a crash that tests pick.
use sd_disk::Pick;

#[derive(Clone, Copy)]
pub(crate) enum Length {
    Least,
    Greatest,
    Synced,
    Now,
    Exactly(u64),
}

pub(crate) const GREATEST: Length = Length::Greatest;

#[derive(Clone, Copy)]
pub(crate) enum Byte {
    Synced,
    Now,
    All(u8),
}

/// One rule for all lengths, and one for all bytes.
#[derive(Clone, Copy)]
pub(crate) struct Rule {
    pub(crate) length: Length,
    pub(crate) byte: Byte,
}

/// Rules of a crash: what stood at the last sync, and the least lengths with one byte at each place that may hold any.
pub(crate) const RULES: &[Rule] = &[
    Rule {
        length: Length::Synced,
        byte: Byte::Synced,
    },
    Rule {
        length: Length::Least,
        byte: Byte::All(0),
    },
    Rule {
        length: Length::Least,
        byte: Byte::All(0xA5),
    },
];

impl Pick for Rule {
    ghost aims = { λ _ _. ⊥ };

    fn len(&mut self, _slot: usize, least: u64, greatest: u64, synced: u64, now: u64) -> u64 {
        match self.length {
            Length::Least => least,
            Length::Greatest => greatest,
            Length::Synced => synced,
            Length::Now => now,
            Length::Exactly(len) => len,
        }
    }

    fn byte(&mut self, _slot: usize, _at: u64, synced: Option<u8>, now: Option<u8>) -> u8 {
        match self.byte {
            Byte::Synced => synced.unwrap_or(0),
            Byte::Now => now.unwrap_or(0),
            Byte::All(byte) => byte,
        }
    }
}

/// A question that a crash asks: whether it is of a length, the slot, and the numbers that go with it. Of a length they
/// are the least, the greatest, that of the last sync and that of now; of a byte its place, and what it was and is,
/// where it was and is there.
pub(crate) type Question = (bool, usize, [u64; 4]);

/// No byte is there.
pub(crate) const NO_BYTE: u64 = 256;

/// Compares what it is asked with questions, and picks what is there now.
#[derive(Drop)]
pub(crate) struct Asked<'a> {
    pub(crate) questions: &'a [Question],
    /// How many were asked.
    pub(crate) count: usize,
    /// Whether each was the next one.
    pub(crate) is_right: bool,
}

impl Asked<'_> {
    fn note(&mut self, question: Question) {
        let (is_length, slot, numbers) = question;
        let is_next = match self.questions.get(self.count) {
            Some(next) => next.0 == is_length && next.1 == slot && next.2 == numbers,
            None => false,
        };
        self.is_right &= is_next;
        self.count = self.count.wrapping_add(1);
    }
}

fn number_of(byte: Option<u8>) -> u64 {
    match byte {
        Some(byte) => u64::from(byte),
        None => NO_BYTE,
    }
}

impl Pick for Asked<'_> {
    ghost aims = { λ _ _. ⊥ };

    fn len(&mut self, slot: usize, least: u64, greatest: u64, synced: u64, now: u64) -> u64 {
        self.note((true, slot, [least, greatest, synced, now]));
        now
    }

    fn byte(&mut self, slot: usize, at: u64, synced: Option<u8>, now: Option<u8>) -> u8 {
        self.note((false, slot, [at, number_of(synced), number_of(now), 0]));
        now.unwrap_or(0)
    }
}
