ghost use Rattle.std.specs.Prelude.{◌≡◌, ◌↔◌, ◌*◌, None, IsTrue};

use sd_command::Refusal;
use std::fmt;

/// How many numbers each mutator stores.
pub(crate) const STORES: u64 = 1_000;

/// What mutators and workers did.
#[derive(Clone, Copy, Debug, PartialEq, Eq)]
pub struct Tally {
    /// How many mutators there were, 1 to 8.
    pub threads: usize,
    /// How many numbers they stored and loaded back, all together.
    pub stores: u64,
    /// The number of the last checkpoint that was acknowledged, or 0.
    pub acked: u64,
    /// Why a checkpoint or a mutator ended early, if one did.
    pub refused: Option<Refusal>,
    /// Whether the journal accounts for what each was answered.
    pub closes: bool,
}

impl Tally {
    /// Whether nothing ended early, each number was stored and loaded back, and the journal accounts for all.
    pub fn is_whole(&self) -> bool
        ensures { IsTrue result ↔ (self.now.refused ≡ None) × IsTrue self.now.closes
            × (self.now.stores ≡ self.now.threads * 1000) }
    {
        let wanted = self.threads as u128 * u128::from(STORES);
        self.refused.is_none() && self.closes && u128::from(self.stores) == wanted
    }
}

impl fmt::Display for Tally {
    fn fmt<W: fmt::Write>(&self, f: &mut fmt::Formatter<W>) -> fmt::Result {
        let Tally {
            threads,
            stores,
            acked,
            refused,
            closes,
        } = *self;
        writeln!(f, "threads {threads} stores {stores} acked {acked}")?;
        if let Some(why) = refused {
            writeln!(f, "refused {why}")?;
        }
        f.write_str(if closes { "close ok" } else { "close failed" })
    }
}
