//! Outcomes of a crash that are picked.
use crate::chance::Chance;
use sd_disk::Pick;

/// One rule for all lengths and bytes.
#[derive(Clone, Copy)]
pub(crate) enum Rule {
    /// What reads now.
    Now,
    /// What stood at the last sync.
    Synced,
    /// The least lengths, and this byte at each place that may hold any.
    Least(u8),
    /// The greatest lengths, and this byte at each place that may hold any.
    Greatest(u8),
    /// Each length and byte is one of those above, at random.
    ByChance(Chance),
}

impl Pick for Rule {
    ghost aims = { λ _ _. ⊥ };

    fn len(&mut self, _slot: usize, least: u64, greatest: u64, synced: u64, now: u64) -> u64 {
        match self {
            Rule::Now => now,
            Rule::Synced => synced,
            Rule::Least(_) => least,
            Rule::Greatest(_) => greatest,
            Rule::ByChance(chance) => match chance.below(4) {
                0 => now,
                1 => synced,
                2 => least,
                _ => greatest,
            },
        }
    }

    fn byte(&mut self, _slot: usize, _at: u64, synced: Option<u8>, now: Option<u8>) -> u8 {
        match self {
            Rule::Now => now.unwrap_or(0),
            Rule::Synced => synced.unwrap_or(0),
            Rule::Least(byte) | Rule::Greatest(byte) => *byte,
            Rule::ByChance(chance) => match chance.below(4) {
                0 => chance.below(256) as u8,
                1 => synced.unwrap_or(0),
                _ => now.unwrap_or(0),
            },
        }
    }
}
